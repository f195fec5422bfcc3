#![tactic(auto)]
// The parameters of a request: their names, the actions, and the values gathered by name.
pub mod action;
pub mod slots;
