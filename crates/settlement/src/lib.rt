#![tactic(auto)]
// Settlement of the table by a day's registry.
pub mod settle;
