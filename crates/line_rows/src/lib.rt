#![tactic(auto)]
// The lines of a registry, read from its text once and held.
pub mod reading;
