#![tactic(auto)]
// The session: its input in parts of any size, of which lines are gathered, and what they print.
pub mod feed;
pub mod show;
pub mod start;
