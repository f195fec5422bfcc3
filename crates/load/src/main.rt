#![tactic(auto)]
// The load program: it reads what is asked for from standard input, and prints the session lines of so many steps.
mod order;

ghost use Rattle.std.specs.Prelude.{◌≡◌, ◌≤◌, length, IfSome};

use line_fields::lines;
use order::Order;
use texts::scan;
use workload::load;

// How many accounts a load has at most.
const ACCOUNTS_MOST: usize = 256;

// Reads the accounts into the columns, a line each, and tells how many there are, if all are well formed; a last line without its end is a line too.
fn read_accounts(text: &[u8], names: &mut [[u8; 30]], keys: &mut [[u64; 2]]) -> Option<usize>
    requires { (256 ≡ length names.old) × (256 ≡ length keys.old) }
    ensures { IfSome result (λ n. (n ≤ length names.new) × (n ≤ length keys.new)) }
{
    let mut count: usize = 0;
    let mut at: usize = 0;
    while at < text.len() {
        if ACCOUNTS_MOST <= count {
            return None;
        }
        let a = order::read_account(lines::line_at(text, at))?;
        let name = a.number.bytes;
        names[count] = name;
        keys[count] = [a.number.len as u64, a.kind];
        count += 1;
        at = lines::next_line(text, at);
    }
    if 0 < count { Some(count) } else { None }
}

// Says on standard error what went wrong.
fn complain(text: &[u8]) {
    io::write_all(2, text);
}

// Prints the lines, a buffer's after the other.
fn print_steps(names: &[[u8; 30]], keys: &[[u64; 2]], o: Order) {
    let mut out = io::large_buffer();
    let mut value = o.start;
    let mut left = o.steps;
    while 0 < left {
        let w = load::write_steps(names, keys, value, o.date, o.reason, left, &mut out);
        if w.steps == 0 {
            complain(b"load: 60: the load is malformed\n");
            return;
        }
        if !io::write_all(1, scan::first_bytes(&out, w.size)) {
            complain(b"load: cannot write standard output\n");
            return;
        }
        value = w.next;
        left -= w.steps;
    }
}

fn main() {
    let mut input = io::large_buffer();
    let n = io::read_full(0, &mut input);
    if n == input.len() {
        complain(b"load: 60: the input is too long\n");
        return;
    }
    let text = &input[..n];
    let Some(o) = order::read_order(scan::before_byte(text, b'\n')) else {
        complain(b"load: 60: START, DATE, REASON or STEPS is malformed\n");
        return;
    };
    let mut names = [[0u8; 30]; 256];
    let mut keys = [[0u64; 2]; 256];
    let Some(count) = read_accounts(scan::after_byte(text, b'\n'), &mut names, &mut keys) else {
        complain(b"load: 60: 1 to 256 accounts are needed, NUMBER TYPE on a line each\n");
        return;
    };
    print_steps(&names[..count], &keys[..count], o);
}
