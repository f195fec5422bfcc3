#![tactic(auto)]
// What the gate looks up for a request, and its decision. Nothing is changed here.
pub mod plan;
