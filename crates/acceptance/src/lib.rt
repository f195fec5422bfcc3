#![tactic(auto)]
// A payment taken at the counter, entered in the book.
pub mod accepting;
