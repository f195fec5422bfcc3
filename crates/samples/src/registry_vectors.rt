// Registries and reports.
use crate::print;
use line_rows::reading;
use lines::line::Line;
use registry::report;
use texts::{digits, out, scan};
use vectors::{given, show};

// The fault of a registry of a day, and the lines of one without.
pub fn check(s: &[u8]) {
    let mut lines = reading::no_lines();
    match reading::read_registry(given::day(s), scan::after_byte(s, b' '), &mut lines) {
        Ok(n) => {
            print::fault(0);
            for x in &lines[..n] {
                show_line(*x);
            }
        }
        Err(fault) => print::fault(fault.into()),
    }
}

// Receipt, kopecks, number, type and date.
fn show_line(x: Line) {
    print::named(b"; ", x.receipt);
    print::named(b" ", x.amount);
    io::write_all(1, b" ");
    print::account(x.number);
    print::named(b" ", x.kind);
    io::write_all(1, b" ");
    show::bytes(&x.date);
}

// A payment of one kopeck.
fn small_line(receipt: u64) -> Line {
    let date = given::date(b"2005-09-20T00:00:00");
    Line {
        number: given::number(b"a"),
        kind: 1,
        date,
        amount: 1,
        receipt,
    }
}

// Writes the lines of the receipts 1 to n, and hands back where they end.
fn write_lines(n: u64, dst: &mut [u8]) -> usize {
    let mut at: usize = 0;
    for receipt in 1..=n {
        at = small_line(receipt).write(dst, at);
    }
    at
}

// The fault of so many lines, `ended` or with a `rest` behind them.
pub fn many_lines(s: &[u8]) {
    let Some(n) = digits::read_digits(scan::before_byte(s, b' '), 3) else {
        print::malformed();
        return;
    };
    let mut space = io::large_buffer();
    let at = write_lines(n, &mut space);
    let e = add_rest(scan::after_byte(s, b' '), &mut space, at);
    let mut lines = reading::no_lines();
    let day = given::day(b"2005-09-20");
    match reading::read_registry(day, scan::first_bytes(&space, e), &mut lines) {
        Ok(_) => print::fault(0),
        Err(fault) => print::fault(fault.into()),
    }
}

fn add_rest(word: &[u8], dst: &mut [u8], at: usize) -> usize {
    match word {
        b"rest" => out::put_bytes(b"x", dst, at),
        _ => at,
    }
}

// Whether a text is a report of so many lines.
pub fn is_report(s: &[u8]) {
    if report::is_report(scan::after_byte(s, b' '), given::value(s) as usize) {
        io::write_all(1, b"good");
    } else {
        print::fault(65);
    }
}
