// Both ends: what the agent writes goes to the gate, and what the gate writes goes back to the agent, each by its size.
use crate::desk;
use crate::desk::{Desk, Sent};
use book::rows::Entries;
use gate::deliver;
use ledger::Reply;
use settlement::settle;
use table::rows::{Table, TableView};
use table::{Gate, rows};
use texts::scan;
use vectors::given;

// A gate closed on the book's frozen day, with a table of so many records.
pub fn start(s: &[u8], d: Desk) -> Desk {
    Desk {
        gate: given::no_gate(d.book.frozen),
        places: given::value(s) as usize,
        ..d
    }
}

// An opening or a draw: its code.
fn called(d: Desk, r: Reply) -> Desk {
    io::print_decimal(1, r.code);
    Desk { gate: r.gate, ..d }
}

// An account opened, from number and type.
pub fn open(s: &[u8], table: TableView<'_>, d: Desk) -> Desk {
    let kind = given::value(scan::after_byte(s, b' '));
    called(
        d,
        opening::open_account(table, d.gate, given::number(s), kind),
    )
}

// A draw, from number, type and kopecks.
pub fn draw(s: &[u8], table: TableView<'_>, d: Desk) -> Desk {
    let rest = scan::after_byte(s, b' ');
    let kopecks = given::value(scan::after_byte(rest, b' '));
    called(
        d,
        opening::draw_funds(table, d.gate, given::number(s), given::value(rest), kopecks),
    )
}

// A request at the gate, from receipt, reason and clock, or a registry, from day and clock, with what the gate writes in `out`.
fn at_gate(
    what: Sent,
    s: &[u8],
    text: &[u8],
    table: &mut Table<'_>,
    g: Gate,
    out: &mut [u8],
) -> Reply {
    let rest = scan::after_byte(s, b' ');
    match what {
        Sent::Request(_) => {
            let clock = given::date(scan::after_byte(rest, b' '));
            deliver::deliver(table, g, clock, text, out)
        }
        Sent::Registry => settle::settle(table, g, given::date(rest), given::day(s), text, out),
    }
}

// What the gate wrote, at the agent: its code, and a report's bytes.
fn come_back(what: Sent, s: &[u8], text: &[u8], entries: &mut Entries<'_>, d: Desk) -> Desk {
    let r = desk::take(what, s, text, entries, d.book);
    desk::named(b" ", r.code);
    if matches!(what, Sent::Registry) {
        io::write_all(1, b" ");
        io::write_all(1, text);
    }
    Desk { book: r.book, ..d }
}

// What was sent, at the gate, and what the gate wrote, at the agent, unless that is lost: the codes of both.
fn send_on(
    lost: bool,
    what: Sent,
    s: &[u8],
    text: &[u8],
    entries: &mut Entries<'_>,
    table: &mut Table<'_>,
    d: Desk,
) -> Desk {
    let mut back = [b'.'; 512];
    let r = at_gate(what, s, text, table, d.gate, &mut back);
    desk::named(b" ", r.code);
    let next = Desk { gate: r.gate, ..d };
    if lost {
        return next;
    }
    come_back(what, s, scan::first_bytes(&back, r.size), entries, next)
}

// A request or a registry of the agent's, sent to the gate, whose answer may be lost: the codes of writing, gate and agent. A refused writing sends nothing.
pub fn exchange(
    lost: bool,
    what: Sent,
    s: &[u8],
    entries: &mut Entries<'_>,
    table: &mut Table<'_>,
    d: Desk,
) -> Desk {
    let mut sent = desk::points();
    let w = desk::write_into(what, 65536, s, entries, d.book, &mut sent);
    io::print_decimal(1, w.code);
    if w.code != 0 {
        return d;
    }
    send_on(
        lost,
        what,
        s,
        scan::first_bytes(&sent, w.size),
        entries,
        table,
        d,
    )
}

// A record's receipt, state and authcode.
pub fn record(s: &[u8], table: TableView<'_>) {
    let i = given::value(s) as usize;
    if table.nums.len() <= i || table.numbers.len() <= i || table.dates.len() <= i {
        return;
    }
    let r = rows::load(table, i);
    io::print_decimal(1, r.receipt);
    desk::named(b" ", r.state);
    desk::named(b" ", r.authcode);
}
