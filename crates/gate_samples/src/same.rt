// Whether two values are the same, in each of their fields.
use days::calendar::Day;
use fields::number::Number;
use ledger::Reply;
use table::{Account, Gate, Record};

// Their bytes past the length too, which `Number::same` leaves out: so `==` is derived nowhere here.
fn number(a: Number, b: Number) -> bool {
    a.len == b.len && a.bytes == b.bytes
}

fn day(a: Day, b: Day) -> bool {
    a.year == b.year && a.month == b.month && a.day == b.day
}

fn record(a: Record, b: Record) -> bool {
    a.receipt == b.receipt
        && number(a.number, b.number)
        && a.kind == b.kind
        && a.amount == b.amount
        && a.date == b.date
        && a.state == b.state
        && a.authcode == b.authcode
        && a.credit == b.credit
        && a.cancel == b.cancel
}

// Each of four records.
pub fn records(a: [Record; 4], b: [Record; 4]) -> bool {
    a.iter().zip(b.iter()).all(|(x, y)| record(*x, *y))
}

fn account(a: Account, b: Account) -> bool {
    number(a.number, b.number) && a.kind == b.kind && a.balance == b.balance
}

// Two gates, in all their places, used or not.
fn gate(a: Gate, b: Gate) -> bool {
    a.count == b.count
        && a.used == b.used
        && day(a.closed, b.closed)
        && a.accounts
            .iter()
            .zip(b.accounts.iter())
            .all(|(x, y)| account(*x, *y))
}

// What two calls answered.
pub fn reply(a: Reply, b: Reply) -> bool {
    a.code == b.code && a.size == b.size && gate(a.gate, b.gate)
}
