#![tactic(auto)]
// Runs days at the agent, and at both ends, from standard input: prints each line, `: ` and what is answered.
mod desk;
mod ends;
mod words;

use book::rows::Entries;
use desk::Desk;
use lists::rows::Rows;
use table::rows::Table;
use texts::scan;
use vectors::{given, input, walk};

// How many rows are lent at most: one entry more than a book may have.
const ENTRIES_MOST: usize = 4097;

// The first n elements, or all of fewer.
fn first<T>(s: &mut [T], n: usize) -> &mut [T] {
    let n = n.min(s.len());
    &mut s[..n]
}

// Runs a line over what is lent, and hands the desk back.
fn answer(line: &[u8], entries: &mut Entries<'_>, table: &mut Table<'_>, d: Desk) -> Desk {
    words::answer(
        scan::before_byte(line, b' '),
        scan::after_byte(line, b' '),
        &mut Rows {
            nums: first(entries.nums, d.lent),
            numbers: first(entries.numbers, d.lent),
            dates: first(entries.dates, d.lent),
        },
        &mut Rows {
            nums: first(table.nums, d.places),
            numbers: first(table.numbers, d.places),
            dates: first(table.dates, d.places),
        },
        d,
    )
}

fn main() {
    let mut buffer = io::large_buffer();
    let mut entries = Rows {
        nums: &mut [[0u64; 6]; ENTRIES_MOST],
        numbers: &mut [[0u8; 30]; ENTRIES_MOST],
        dates: &mut [[0u8; 19]; ENTRIES_MOST],
    };
    let mut table = Rows {
        nums: &mut [[0u64; 6]; 8],
        numbers: &mut [[0u8; 30]; 8],
        dates: &mut [[[0u8; 19]; 3]; 8],
    };
    let mut d = desk::start(b"", given::no_gate(given::day(b"")));
    let n = input::read_all(&mut buffer);
    walk::answer_lines(&buffer[..n], |line| {
        d = answer(line, &mut entries, &mut table, d);
    });
}
