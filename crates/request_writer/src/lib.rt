#![tactic(auto)]
// Requests, written into lent buffers.
pub mod write;
