// A call over a table, and over records that hold the same.
use crate::world::World;
use crate::{lending, same};
use calls::Call;
use fields::number::Number;
use ledger::Reply;
use lists::rows::Rows;
use table::rows::{Table, TableView};
use table::{Gate, Record, rows};

// What a call answered, and the records and the buffer as it left them.
#[derive(Clone, Copy)]
pub struct Left {
    pub reply: Reply,
    pub records: [Record; 4],
    pub out: [u8; 512],
}

// The record at i, or zeros past the rows.
fn record_at(table: TableView<'_>, i: usize) -> Record {
    if table.nums.len() <= i || table.numbers.len() <= i || table.dates.len() <= i {
        return Record {
            receipt: 0,
            number: Number {
                bytes: [0u8; 30],
                len: 0,
            },
            kind: 0,
            amount: 0,
            date: [0u8; 19],
            state: 0,
            authcode: 0,
            credit: [0u8; 19],
            cancel: [0u8; 19],
        };
    }
    rows::load(table, i)
}

// The four records that the rows hold, used or not.
fn held(table: TableView<'_>) -> [Record; 4] {
    [0, 1, 2, 3].map(|i| record_at(table, i))
}

// The first n elements, or all of fewer.
fn first<T>(s: &mut [T], n: usize) -> &mut [T] {
    let n = n.min(s.len());
    &mut s[..n]
}

// The call over what is lent of the rows.
fn over_lent(table: &mut Table<'_>, w: World, call: Call, text: &[u8], out: &mut [u8]) -> Reply {
    let mut part = Rows {
        nums: first(table.nums, w.lent),
        numbers: first(table.numbers, w.lent),
        dates: first(table.dates, w.lent_dates),
    };
    calls::call_on(&mut part, w.gate, call, text, out)
}

// The call over as many of the records, with `room` bytes lent.
fn over_records(records: [Record; 4], w: World, call: Call, text: &[u8], room: usize) -> Left {
    let mut out = [b'.'; 512];
    let part = &mut out[..room.min(512)];
    let desk = lending::call_first(records, w.lent.min(4), w.gate, call, text, part);
    let records = desk.records;
    Left {
        reply: desk.reply,
        records,
        out,
    }
}

fn complain(what: &[u8]) {
    io::write_all(1, b"\nover records otherwise: ");
    io::write_all(1, what);
}

// Complains of each part in which two calls differ.
fn compare(a: Left, b: Left) {
    if !same::reply(a.reply, b.reply) {
        complain(b"the reply");
    }
    if !same::records(a.records, b.records) {
        complain(b"a record");
    }
    if a.out != b.out {
        complain(b"the buffer");
    }
}

// The call over both, with `room` bytes lent, and what the rows gave. Rows of different lengths are those of no records.
pub fn run(table: &mut Table<'_>, w: World, call: Call, text: &[u8], room: usize) -> Left {
    let before = held(table.view());
    let mut out = [b'.'; 512];
    let part = &mut out[..room.min(512)];
    let reply = over_lent(table, w, call, text, part);
    let records = held(table.view());
    let left = Left {
        reply,
        records,
        out,
    };
    if w.lent == w.lent_dates {
        compare(left, over_records(before, w, call, text, room));
    }
    left
}
