#![tactic(auto)]
// The agent's book: its head by value, and its entries in three lent rows.
pub mod rows;
pub mod states;

use days::calendar::Day;
use fields::number::Number;

// A payment taken at a counter. The numbers of its states are those of `State`, from 1 on; the field is a number, since C may lend any.
#[derive(Clone, Copy)]
pub struct Entry {
    pub receipt: u64,
    pub number: Number,
    pub kind: u64,
    pub amount: u64,
    pub date: [u8; 19],
    pub state: u64,
    pub authcode: u64,
}

// The entries in use are the first `used` of the lent rows; their receipts are consecutive from `first`. C hands it in and gets it back.
#[repr(C)]
#[derive(Clone, Copy)]
pub struct Book {
    pub first: u64,
    pub used: usize,
    pub frozen: Day,
    pub settled: bool,
}

#[derive(Clone, Copy, Debug, PartialEq, Eq)]
pub enum State {
    Asked,
    Credited,
    CancelAsked,
    Cancelled,
    Unposted,
}
