#![tactic(auto)]
// What a line of a session prints.
pub mod daily;
pub mod print;
mod sums;
