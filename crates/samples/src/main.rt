#![tactic(auto)]
// Runs the vectors of standard input: prints each line, `: ` and what the crates answer.
mod answer_vectors;
mod asked_vectors;
mod coding_vectors;
mod day_vectors;
mod digit_vectors;
mod number_vectors;
mod print;
mod registry_vectors;
mod request_vectors;
mod words;
mod write_vectors;

use texts::scan;
use vectors::{escape, input, walk};

fn main() {
    let mut buffer = io::large_buffer();
    let mut space = io::large_buffer();
    let n = input::read_all(&mut buffer);
    walk::answer_lines(&buffer[..n], |line| {
        let n = escape::unescape(scan::after_byte(line, b' '), &mut space);
        words::answer(scan::before_byte(line, b' '), scan::first_bytes(&space, n));
    });
}
