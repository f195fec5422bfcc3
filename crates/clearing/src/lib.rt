#![tactic(auto)]
// A day's lines on the ledger: read once, settled in their order, the strays swept, the report made.
pub mod each_line;
pub mod report;
pub mod sweeping;
