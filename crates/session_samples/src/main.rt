#![tactic(auto)]
// Runs whole sessions from standard input, one a line: the room of the output, a space, and the input, in which / stands for 0A.
// Prints each line, `: ` and what the session prints, again with / for 0A, or `refused`.
use console::feed;
use lists::rows::Rows;
use texts::scan;
use vectors::{given, input, walk};

// Puts each byte of s, with b in the place of a, as far as there is room, and returns how many.
fn exchange(s: &[u8], a: u8, b: u8, dst: &mut [u8]) -> usize {
    for (d, x) in dst.iter_mut().zip(s) {
        *d = if *x == a { b } else { *x };
    }
    s.len().min(dst.len())
}

// Prints what a session prints for an input, into an output of this room.
fn run(text: &[u8], room: usize, input: &mut [u8], output: &mut [u8], shown: &mut [u8]) {
    let n = exchange(text, b'/', b'\n', input);
    let k = room.min(output.len());
    let mut table = Rows {
        nums: &mut [[0u64; 6]; 4],
        numbers: &mut [[0u8; 30]; 4],
        dates: &mut [[[0u8; 19]; 3]; 4],
    };
    let Some(size) = feed::run_session(&mut table, scan::first_bytes(input, n), &mut output[..k])
    else {
        io::write_all(1, b"refused");
        return;
    };
    let m = exchange(scan::first_bytes(output, size), b'\n', b'/', shown);
    io::write_all(1, scan::first_bytes(shown, m));
}

fn main() {
    let mut buffer = io::large_buffer();
    let mut input = [0u8; 512];
    let mut output = [0u8; 196992];
    let mut shown = [0u8; 196992];
    let n = input::read_all(&mut buffer);
    walk::answer_lines(&buffer[..n], |line| {
        run(
            scan::after_byte(line, b' '),
            given::value(line) as usize,
            &mut input,
            &mut output,
            &mut shown,
        );
    });
}
