// What the vectors of the gate keep from line to line: the gate, and how many records are lent.
use table::Gate;
use texts::scan;
use vectors::given;

// The dates may be lent at a length of their own.
#[derive(Clone, Copy)]
pub struct World {
    pub gate: Gate,
    pub lent: usize,
    pub lent_dates: usize,
}

// A new world from a closed day and the number of records lent.
pub fn start(s: &[u8]) -> World {
    let lent = given::value(scan::after_byte(s, b' ')) as usize;
    World {
        gate: given::no_gate(given::day(s)),
        lent,
        lent_dates: lent,
    }
}

// The same, and it says so.
pub fn started(s: &[u8]) -> World {
    io::write_all(1, b"ok");
    start(s)
}

// A name and a number, printed.
pub fn named(name: &[u8], n: u64) {
    io::write_all(1, name);
    io::print_decimal(1, n);
}

fn show_difference(a: u64, b: u64) {
    if a < b {
        io::write_all(1, b"-");
        io::print_decimal(1, b - a);
    } else {
        io::print_decimal(1, a - b);
    }
}

// The sum of the balances in use.
fn show_total(g: Gate) {
    let mut over: u64 = 0;
    let mut under: u64 = 0;
    for a in &g.accounts[..g.count.min(256)] {
        over = over.wrapping_add(a.balance.max(0).unsigned_abs());
        under = under.wrapping_add(a.balance.min(0).unsigned_abs());
    }
    show_difference(over, under);
}

// Code, records used and sum of balances.
pub fn show_state(code: u64, g: Gate) {
    io::print_decimal(1, code);
    named(b" ", g.used as u64);
    io::write_all(1, b" ");
    show_total(g);
}
