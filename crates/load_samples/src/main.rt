#![tactic(auto)]
// Runs the vectors of standard input on the generator and the load: prints each line, `: ` and what the calls answer.
mod load_vectors;

use generator::next_value;
use texts::scan;
use vectors::{escape, given, input, line, walk};

// How many values are printed.
const VALUES: usize = 10;

// The first ten values after a start.
fn values(start: u64) {
    let mut v = start;
    for _ in 0..VALUES {
        v = next_value(v);
        io::print_decimal(1, v);
        io::write_all(1, b" ");
    }
}

// Two numbers, multiplied.
fn product(s: &[u8]) {
    let a = given::value(s);
    let b = given::value(scan::after_byte(s, b' '));
    io::print_decimal(1, generator::product(a, b));
}

// Runs a word on its text.
fn answer(word: &[u8], text: &[u8]) {
    match line::place(word, b"values product load") {
        0 => values(given::value(text)),
        1 => product(text),
        2 => load_vectors::load(text),
        _ => {
            io::write_all(1, b"no such word");
        }
    }
}

fn main() {
    let mut buffer = io::large_buffer();
    let mut space = io::large_buffer();
    let n = input::read_all(&mut buffer);
    walk::answer_lines(&buffer[..n], |line| {
        let n = escape::unescape(scan::after_byte(line, b' '), &mut space);
        answer(scan::before_byte(line, b' '), scan::first_bytes(&space, n));
    });
}
