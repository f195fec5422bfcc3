// Values of the first record, the first account, the gate and what is lent, set to any.
use crate::world::World;
use days::calendar::Day;
use table::rows::Table;
use table::{Account, Record, rows};
use texts::scan;
use vectors::{given, line};

// Sets what the first word names to the value behind it.
pub fn spoil(s: &[u8], table: &mut Table<'_>, w: World) -> World {
    io::write_all(1, b"ok");
    let value = scan::after_byte(s, b' ');
    let k = line::place(
        scan::before_byte(s, b' '),
        b"receipt amount state authcode account date credit cancel used count closed holder holder-type balance debt lengths",
    );
    match k {
        0..=7 => {
            spoil_record(k, value, table);
            w
        }
        11..=14 => {
            let mut x = w;
            x.gate.accounts[0] = spoiled_account(k, value, w.gate.accounts[0]);
            x
        }
        _ => spoiled_world(k, given::value(value), given::day(value), w),
    }
}

fn spoil_record(k: usize, value: &[u8], table: &mut Table<'_>) {
    if table.nums.len() < 1 || table.numbers.len() < 1 || table.dates.len() < 1 {
        return;
    }
    let r = spoiled_record(k, value, rows::load(table.view(), 0));
    rows::store(table, 0, r);
}

// Receipt, amount, state, authcode, number, date, credit date or cancel date.
fn spoiled_record(k: usize, value: &[u8], r: Record) -> Record {
    let v = given::value(value);
    let d = given::date(value);
    let mut x = r;
    match k {
        0 => x.receipt = v,
        1 => x.amount = v,
        2 => x.state = v,
        3 => x.authcode = v,
        4 => x.number = given::number(value),
        5 => x.date = d,
        6 => x.credit = d,
        _ => x.cancel = d,
    }
    x
}

// The records used, the accounts, the closed day, or the dates that are lent.
fn spoiled_world(k: usize, v: u64, closed: Day, w: World) -> World {
    let mut x = w;
    match k {
        8 => x.gate.used = v as usize,
        9 => x.gate.count = v as usize,
        10 => x.gate.closed = closed,
        _ => x.lent_dates = v as usize,
    }
    x
}

// The first account: its number, its type, its balance, or a debt.
fn spoiled_account(k: usize, value: &[u8], a: Account) -> Account {
    let v = given::value(value);
    let mut x = a;
    match k {
        11 => x.number = given::number(value),
        12 => x.kind = v,
        13 => x.balance = signed(v),
        _ => x.balance = signed(v).wrapping_neg(),
    }
    x
}

// A number below 10^18, or 0 where it is not.
fn signed(v: u64) -> i64 {
    if v < 1000000000000000000 { v as i64 } else { 0 }
}
