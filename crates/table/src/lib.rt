#![tactic(auto)]
// The gate's state: accounts, and the payment table in three lent rows.
pub mod accounts;
pub mod columns;
pub mod daily;
pub mod payment;
pub mod rows;

use days::calendar::Day;
use fields::number::Number;

// How many accounts a gate has at most.
pub const ACCOUNTS_MOST: usize = 256;

// The states of a record.
pub const DONE: u64 = 1;

pub const CANCELLED: u64 = 2;

// A payment. While it is done, zeros stand for its cancel date. Its state is a number, since C may lend any.
#[derive(Clone, Copy)]
pub struct Record {
    pub receipt: u64,
    pub number: Number,
    pub kind: u64,
    pub amount: u64,
    pub date: [u8; 19],
    pub state: u64,
    pub authcode: u64,
    pub credit: [u8; 19],
    pub cancel: [u8; 19],
}

#[repr(C)]
#[derive(Clone, Copy)]
pub struct Account {
    pub number: Number,
    pub kind: u64,
    pub balance: i64,
}

// The accounts in use are the first `count`, the records in use the first `used` of the lent table.
#[repr(C)]
#[derive(Clone, Copy)]
pub struct Gate {
    pub accounts: [Account; 256],
    pub count: usize,
    pub closed: Day,
    pub used: usize,
}

// A gate without its accounts, which are lent in columns.
#[repr(C)]
#[derive(Clone, Copy)]
pub struct Head {
    pub count: usize,
    pub closed: Day,
    pub used: usize,
}
