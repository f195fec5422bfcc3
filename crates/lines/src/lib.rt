#![tactic(auto)]
// A line of a registry, read and written.
pub mod line;
