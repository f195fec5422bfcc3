#![tactic(auto)]
// The gate on the wire: a request is delivered, decided and answered.
pub mod deliver;
