#![tactic(auto)]
// Requests, read from bytes with their first fault.
pub mod request;
