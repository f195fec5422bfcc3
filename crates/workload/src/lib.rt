#![tactic(auto)]
// A load for a rehearsal: session lines from a generator's values, so that anyone can make the same traffic again.
pub mod given;
pub mod line;
pub mod load;
