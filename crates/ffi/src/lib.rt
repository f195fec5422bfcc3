#![tactic(auto)]
// The exported calls of both ends for C and Rust: rows by pointer and count, gate and book by value or the accounts lent and the head by value, a written date by pointer, one function an action.
// Each has its callee's whole contract. Types that cross carry #[repr(C)] where they are declared.
pub mod agent_calls;
pub mod gate_calls;
pub mod lent_calls;
