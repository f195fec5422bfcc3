// The gate: openings and draws, requests, and registries.
use crate::both::Left;
use crate::world::World;
use crate::{both, world};
use fields::number::Number;
use ledger::Reply;
use table::rows::{Table, TableView};
use table::{Record, rows};
use texts::{digits, scan};
use vectors::given;

// Shows what a call answered, and hands back the world that it left.
fn answered(w: World, r: Reply) -> World {
    world::show_state(r.code, r.gate);
    World { gate: r.gate, ..w }
}

// The type before the first space; 1000 where there is none.
fn kind(s: &[u8]) -> u64 {
    digits::read_digits(scan::before_byte(s, b' '), 3).unwrap_or(1000)
}

// A clock of nineteen bytes; nineteen zeros for any other text.
fn clock(s: &[u8]) -> [u8; 19] {
    if scan::find_byte(s, b' ') == 19 {
        given::date(s)
    } else {
        [0u8; 19]
    }
}

// An opening, from number and type.
pub fn open(s: &[u8], table: &mut Table<'_>, w: World) -> World {
    let call = calls::opening_call(given::number(s), kind(scan::after_byte(s, b' ')));
    answered(w, both::run(table, w, call, b"", 512).reply)
}

// A draw, from number, type and kopecks.
pub fn draw(s: &[u8], table: &mut Table<'_>, w: World) -> World {
    let rest = scan::after_byte(s, b' ');
    let kopecks = given::value(scan::after_byte(rest, b' '));
    let call = calls::drawing_call(given::number(s), kind(rest), kopecks);
    answered(w, both::run(table, w, call, b"", 512).reply)
}

// `a` and the digits of i.
fn named(i: u64) -> Number {
    let mut space = [b'a'; 30];
    let n = digits::write_digits(i, &mut space, 1);
    given::number(scan::first_bytes(&space, n))
}

// So many openings: the last one's code.
pub fn open_many(s: &[u8], table: &mut Table<'_>, w: World) -> World {
    let mut code: u64 = 0;
    let mut next = w;
    for i in 0..given::value(s) {
        let call = calls::opening_call(named(i), 1);
        let r = both::run(table, next, call, b"", 512).reply;
        code = r.code;
        next.gate = r.gate;
    }
    io::print_decimal(1, code);
    next
}

// A request, from clock and parameters, with `room` bytes lent for its answer.
pub fn deliver(room: usize, s: &[u8], table: &mut Table<'_>, w: World) -> World {
    let call = calls::request_call(clock(s));
    let text = scan::after_byte(s, b' ');
    told(w, both::run(table, w, call, text, room))
}

// A registry, from day, clock and text, with `room` bytes lent for its report.
pub fn settle(room: usize, s: &[u8], table: &mut Table<'_>, w: World) -> World {
    let rest = scan::after_byte(s, b' ');
    let call = calls::registry_call(clock(rest), given::day(s));
    let text = scan::after_byte(rest, b' ');
    told(w, both::run(table, w, call, text, room))
}

// Shows what was answered and written, and hands back the world that the call left.
fn told(w: World, a: Left) -> World {
    let next = answered(w, a.reply);
    show_written(&a.out, a.reply.size);
    next
}

// The bytes that were written into a buffer of points, and a word where another byte is no point any more.
fn show_written(out: &[u8], size: usize) {
    if 0 < size {
        io::write_all(1, b" ");
        io::write_all(1, scan::first_bytes(out, size));
    }
    let points = [b'.'; 512];
    if !scan::same_bytes(scan::bytes_from(out, size), scan::bytes_from(&points, size)) {
        io::write_all(1, b" and more");
    }
}

// A record in use, as it stands.
pub fn record(s: &[u8], table: TableView<'_>, w: World) {
    let i = given::value(s) as usize;
    if w.gate.used <= i
        || table.nums.len() <= i
        || table.numbers.len() <= i
        || table.dates.len() <= i
    {
        io::write_all(1, b"unused");
        return;
    }
    show_record(rows::load(table, i));
}

// Receipt, number, type, kopecks, date, state, authcode, credit date and cancel date.
fn show_record(r: Record) {
    io::print_decimal(1, r.receipt);
    io::write_all(1, b" ");
    io::write_all(1, scan::first_bytes(&r.number.bytes, r.number.len));
    world::named(b" ", r.kind);
    world::named(b" ", r.amount);
    show_date(r.date);
    world::named(b" ", r.state);
    world::named(b" ", r.authcode);
    show_date(r.credit);
    show_date(r.cancel);
}

// The bytes of a date before its first zero; `-` where there are none.
fn show_date(d: [u8; 19]) {
    io::write_all(1, b" ");
    let n = scan::find_byte(&d, 0);
    if n == 0 {
        io::write_all(1, b"-");
        return;
    }
    io::write_all(1, scan::first_bytes(&d, n));
}
