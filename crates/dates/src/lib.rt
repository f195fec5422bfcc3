#![tactic(auto)]
// Days of the calendar, and written dates.
pub mod date;
