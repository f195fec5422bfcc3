#![tactic(auto)]
// Row 68 of the gate: whether what is lent as gate and table is in its ranges.
mod ranges;
mod slots;
pub mod valid;
