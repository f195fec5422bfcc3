#![tactic(auto)]
// Answers, as the agent reads them.
mod parts;
pub mod read;
mod tags;
