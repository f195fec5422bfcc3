// What the vectors keep from line to line: the book, the gate, and how many entries and records are lent. What the agent does.
ghost use Rattle.std.specs.Prelude.{◌≡◌, ◌<◌, length};

use acceptance::accepting;
use book::rows::{Entries, EntriesView};
use book::{Book, rows};
use daybook::{Writing, freezing};
use parameters::action;
use payments::Action;
use reporting::taking;
use reporting::taking::Reporting;
use table::Gate;
use texts::scan;
use vectors::{given, line};

#[derive(Clone, Copy)]
pub struct Desk {
    pub book: Book,
    pub lent: usize,
    pub gate: Gate,
    pub places: usize,
}

// What the agent sends.
#[derive(Clone, Copy)]
pub enum Sent {
    Request(Action),
    Registry,
}

// A name and a number, printed.
pub fn named(name: &[u8], n: u64) {
    io::write_all(1, name);
    io::print_decimal(1, n);
}

// A request by its action's word, with or without more behind a hyphen, or else a registry.
pub fn sent_of(s: &[u8]) -> Sent {
    let word = scan::before_byte(scan::before_byte(s, b' '), b'-');
    match action::read_action(word) {
        Some(a) => Sent::Request(a),
        None => Sent::Registry,
    }
}

// A book from its first receipt, its frozen day and the number of entries lent; at the start it is settled. The gate stays.
pub fn start(s: &[u8], gate: Gate) -> Desk {
    let rest = scan::after_byte(s, b' ');
    Desk {
        book: Book {
            first: given::value(s),
            used: 0,
            frozen: given::day(rest),
            settled: true,
        },
        lent: given::value(scan::after_byte(rest, b' ')) as usize,
        gate,
        places: 0,
    }
}

// A payment, from number, type, kopecks and date: code, receipt and entries used.
pub fn accept(s: &[u8], entries: &mut Entries<'_>, d: Desk) -> Desk {
    let second = scan::after_byte(s, b' ');
    let third = scan::after_byte(second, b' ');
    let r = accepting::accept(
        entries,
        d.book,
        given::number(s),
        given::value(second),
        given::value(third),
        given::date(scan::after_byte(third, b' ')),
    );
    io::print_decimal(1, r.code);
    named(b" ", r.receipt);
    named(b" ", r.book.used as u64);
    Desk { book: r.book, ..d }
}

// So many acceptances of what follows.
pub fn accept_many(s: &[u8], entries: &mut Entries<'_>, d: Desk) -> Desk {
    let rest = scan::after_byte(s, b' ');
    let mut next = d;
    for _ in 0..given::value(s) {
        next = accept(rest, entries, next);
        io::write_all(1, b";");
    }
    next
}

// A request into `out`, from a receipt and for a cancel its reason, for a check from number, type and kopecks.
fn write_request(
    a: Action,
    s: &[u8],
    entries: &mut Entries<'_>,
    b: Book,
    out: &mut [u8],
) -> Writing {
    let receipt = given::value(s);
    let rest = scan::after_byte(s, b' ');
    let second = given::value(rest);
    match a {
        Action::Check => {
            let kopecks = given::value(scan::after_byte(rest, b' '));
            writing::write_check(entries.view(), b, given::number(s), second, kopecks, out)
        }
        Action::Payment => writing::write_payment(entries, b, receipt, out),
        Action::Status => writing::write_status(entries, b, receipt, out),
        Action::Cancel => writing::write_cancel(entries, b, receipt, second, out),
    }
}

// A request, or the registry of a day, into `out`, of which so many bytes are lent.
pub fn write_into(
    what: Sent,
    most: usize,
    s: &[u8],
    entries: &mut Entries<'_>,
    b: Book,
    out: &mut [u8],
) -> Writing {
    let n = most.min(out.len());
    match what {
        Sent::Request(a) => write_request(a, s, entries, b, &mut out[..n]),
        Sent::Registry => listing::write_registry(entries.view(), b, given::day(s), &mut out[..n]),
    }
}

// A buffer of points, as long as a registry asks for.
pub fn points() -> [u8; 65536]
    ensures { 65536 ≡ length result }
{
    [b'.'; 65536]
}

// A writing with so many bytes lent: its code, and what was written.
pub fn write(what: Sent, most: usize, s: &[u8], entries: &mut Entries<'_>, d: Desk) -> Desk {
    let mut out = points();
    let r = write_into(what, most, s, entries, d.book, &mut out);
    io::print_decimal(1, r.code);
    show_behind(scan::first_bytes(&out, r.size));
    d
}

// A text behind a space, if it has bytes.
fn show_behind(s: &[u8]) {
    if 0 < s.len() {
        io::write_all(1, b" ");
        io::write_all(1, s);
    }
}

// The answer to a request by its receipt, or the report of a day.
pub fn take(what: Sent, s: &[u8], text: &[u8], entries: &mut Entries<'_>, b: Book) -> Reporting {
    match what {
        Sent::Request(a) => {
            let code = answering::take_answer(entries, b, a, given::value(s), text);
            Reporting { code, book: b }
        }
        Sent::Registry => taking::take_report(entries, b, given::day(s), text),
    }
}

// Whether the frozen day has its report, where one was taken.
fn show_settled(what: Sent, b: Book) {
    if matches!(what, Sent::Registry) {
        let word: &[u8] = if b.settled {
            b" settled"
        } else {
            b" unsettled"
        };
        io::write_all(1, word);
    }
}

// An answer, from receipt and text, or a report, from day and text.
pub fn taken(what: Sent, s: &[u8], entries: &mut Entries<'_>, d: Desk) -> Desk {
    let r = take(what, s, scan::after_byte(s, b' '), entries, d.book);
    io::print_decimal(1, r.code);
    show_settled(what, r.book);
    Desk { book: r.book, ..d }
}

// A day to be frozen.
pub fn freeze(s: &[u8], entries: EntriesView<'_>, d: Desk) -> Desk {
    let r = freezing::freeze(entries, d.book, given::day(s));
    io::print_decimal(1, r.code);
    Desk { book: r.book, ..d }
}

// An entry's receipt, state and authcode.
pub fn entry(s: &[u8], entries: EntriesView<'_>, d: Desk) -> Desk {
    let i = given::value(s) as usize;
    if entries.nums.len() <= i || entries.numbers.len() <= i || entries.dates.len() <= i {
        return d;
    }
    let e = rows::load_entry(entries, i);
    io::print_decimal(1, e.receipt);
    named(b" ", e.state);
    named(b" ", e.authcode);
    d
}

// Where a named number of an entry stands.
fn place_of(name: &[u8]) -> usize
    ensures { result < 6 }
{
    match line::place(name, b"receipt state") {
        0 => 0,
        1 => 4,
        _ => 5,
    }
}

// The first entry's receipt, state or authcode, spoilt.
pub fn spoil(s: &[u8], nums: &mut [[u64; 6]], d: Desk) -> Desk {
    if let Some(first) = nums.first_mut() {
        first[place_of(scan::before_byte(s, b' '))] = given::value(scan::after_byte(s, b' '));
    }
    d
}
