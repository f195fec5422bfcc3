#![tactic(auto)]
// The texts of the day's end: registries and their reports.
pub mod report;
pub mod text;
