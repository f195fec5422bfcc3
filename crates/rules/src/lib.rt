#![tactic(auto)]
// The rules of the gate, on values alone: the decision on a request, and the answer that it gives.
pub mod answer;
pub mod decision;
