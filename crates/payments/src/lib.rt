#![tactic(auto)]
// What the two ends tell each other, whatever the wire: an action with the details of its payment, and an answer.
use fields::number::Number;

#[derive(Clone, Copy, PartialEq, Eq)]
pub enum Action {
    Check,
    Payment,
    Status,
    Cancel,
}

// What a payment is known by; number and type name its account.
#[derive(Clone, Copy)]
pub struct Details {
    pub receipt: u64,
    pub number: Number,
    pub kind: u64,
    pub amount: u64,
    pub date: [u8; 19],
}

// What is asked of the gate.
#[derive(Clone, Copy)]
pub struct Instruction {
    pub action: Action,
    pub details: Details,
}

// A code, and where the answer has one an authcode and a date.
#[derive(Clone, Copy)]
pub struct Answer {
    pub code: u64,
    pub authorized: bool,
    pub authcode: u64,
    pub dated: bool,
    pub date: [u8; 19],
}
