#![tactic(auto)]
// The gate's ledger: what a request finds in accounts and table, and the changes that a decision makes there. No wire text.
pub mod change;

use table::{Gate, Head};

// What a call of the gate answers: its code, the gate as it leaves it, and how many bytes of the lent buffer it wrote. C gets it so (`roosteryore_deliver`): a number, and the gate with a fault too.
#[repr(C)]
#[derive(Clone, Copy)]
pub struct Reply {
    pub code: u64,
    pub gate: Gate,
    pub size: usize,
}

// The same where the accounts are lent in columns: the head instead of the gate. C gets it so (`roosteryore_deliver_lent`).
#[repr(C)]
#[derive(Clone, Copy)]
pub struct HeadReply {
    pub code: u64,
    pub head: Head,
    pub size: usize,
}
