#![tactic(auto)]
// The fields of document 01, read from bytes and written into lent buffers.
pub mod amount;
pub mod codes;
pub mod number;
