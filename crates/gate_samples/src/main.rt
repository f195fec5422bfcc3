#![tactic(auto)]
// Runs the gate's vectors of standard input over a table and over records: prints each line, `: ` and what is answered.
mod both;
mod gate_vectors;
mod lending;
mod same;
mod spoil;
mod words;
mod world;

use lists::rows::Rows;
use texts::scan;
use vectors::{escape, input, walk};

fn main() {
    let mut buffer = io::large_buffer();
    let mut space = io::large_buffer();
    let mut table = Rows {
        nums: &mut [[0u64; 6]; 4],
        numbers: &mut [[0u8; 30]; 4],
        dates: &mut [[[0u8; 19]; 3]; 4],
    };
    let mut w = world::start(b"");
    let n = input::read_all(&mut buffer);
    walk::answer_lines(&buffer[..n], |line| {
        let n = escape::unescape(scan::after_byte(line, b' '), &mut space);
        w = words::answer(
            scan::before_byte(line, b' '),
            scan::first_bytes(&space, n),
            &mut table,
            w,
        );
    });
}
