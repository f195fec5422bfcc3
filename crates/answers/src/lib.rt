#![tactic(auto)]
// Answers, as the gate writes them.
pub mod write;
