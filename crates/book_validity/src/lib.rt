#![tactic(auto)]
// Whether a lent book is one (row 68), how many entries a day has, and the entry of a receipt.
pub mod counts;
pub mod find;
pub mod valid;
