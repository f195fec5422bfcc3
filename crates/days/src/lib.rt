#![tactic(auto)]
// Days of the calendar.
pub mod calendar;
