#![tactic(auto)]
// The session program: it moves bytes from standard input to the console, and what the console prints to standard output.
ghost use Rattle.std.specs.Prelude.{◌≡◌, ◌≤◌, length, IfSome};
ghost use Rattle.table.specs.Columns.{gate_of, columns_of};
ghost use Rattle.figures.specs.Sums.{Summable};
ghost use Rattle.console.specs.Feed.{line_room};
ghost use Rattle.console.specs.Session.{new_head};

use console::feed::Part;
use console::{feed, start};
use lists::rows::Rows;
use std::io::{Read, Stdin};
use table::columns;
use table::rows::Table;
use texts::scan;

// The table that is lent: 256 records.
fn empty_nums() -> [[u64; 6]; 256]
    ensures { 256 ≡ length result }
{
    [[0u64; 6]; 256]
}

fn empty_numbers() -> [[u8; 30]; 256]
    ensures { 256 ≡ length result }
{
    [[0u8; 30]; 256]
}

fn empty_dates() -> [[[u8; 19]; 3]; 256]
    ensures { 256 ≡ length result }
{
    [[[0u8; 19]; 3]; 256]
}

// What is printed before it is written: room for all that one line can print, 16,512 bytes, and for some hundred usual lines.
fn output_part() -> [u8; 20480]
    ensures { 20480 ≡ length result }
{
    [0u8; 20480]
}

// A session that has not begun.
fn begin() -> Part
    ensures { result.console ≡ new_head }
{
    Part {
        console: start::new_console(),
        mark: gathering::new_mark(),
        size: 0,
        taken: 0,
    }
}

// Says on standard error what went wrong.
fn complain(text: &[u8]) {
    io::write_all(2, text);
}

// Reads once into the buffer, and hands back how many bytes came: none at the end of the input, and none where it cannot be read, which is told.
fn read_some(stdin: &mut Stdin, input: &mut [u8]) -> usize
    ensures { result ≤ length input.new }
{
    match stdin.read(input) {
        Ok(n) => n,
        Err(_) => {
            complain(b"session: cannot read standard input\n");
            0
        }
    }
}

// Feeds what was read, again where the buffer had no room for all of it, and prints. None where that could not be written.
fn feed_read(
    table: &mut Table<'_>,
    names: &mut [[u8; 30]; 256],
    keys: &mut [[u64; 2]; 256],
    balances: &mut [i64; 256],
    bytes: &mut [u8; 2177],
    input: &[u8],
    out: &mut [u8],
    s: Part,
) -> Option<Part>
    requires { Summable (gate_of s.console.head (columns_of names.old keys.old balances.old)) × (line_room (length table.old.nums.now) ≤ length out.old) }
    ensures summable { IfSome result (λ p. Summable (gate_of p.console.head (columns_of names.new keys.new balances.new))) }
    ensures places { length table.new.nums.now ≡ length table.old.nums.now }
{
    let mut session = s;
    let mut at: usize = 0;
    while at < input.len() {
        session = feed::feed(
            table,
            names,
            keys,
            balances,
            bytes,
            session.console,
            session.mark,
            &input[at..],
            out,
        );
        if !io::write_all(1, scan::first_bytes(out, session.size)) {
            return None;
        }
        at += session.taken;
    }
    Some(session)
}

// Feeds all of the input. A proved loop has to end, so it counts its turns to a number that no run comes to.
fn feed_all(
    stdin: &mut Stdin,
    table: &mut Table<'_>,
    names: &mut [[u8; 30]; 256],
    keys: &mut [[u64; 2]; 256],
    balances: &mut [i64; 256],
    bytes: &mut [u8; 2177],
    input: &mut [u8],
    out: &mut [u8],
    s: Part,
) -> Option<Part>
    requires { Summable (gate_of s.console.head (columns_of names.old keys.old balances.old)) × (line_room (length table.old.nums.now) ≤ length out.old) }
    ensures summable { IfSome result (λ p. Summable (gate_of p.console.head (columns_of names.new keys.new balances.new))) }
    ensures places { length table.new.nums.now ≡ length table.old.nums.now }
{
    let mut session = s;
    for _ in 0..u64::MAX {
        let n = read_some(stdin, input);
        if n == 0 {
            return Some(session);
        }
        session = feed_read(
            table,
            names,
            keys,
            balances,
            bytes,
            &input[..n],
            out,
            session,
        )?;
    }
    Some(session)
}

// Prints the last line, where no 0A ends it.
fn print_last(
    table: &mut Table<'_>,
    names: &mut [[u8; 30]; 256],
    keys: &mut [[u64; 2]; 256],
    balances: &mut [i64; 256],
    bytes: &[u8; 2177],
    out: &mut [u8],
    s: Part,
) -> bool
    requires { Summable (gate_of s.console.head (columns_of names.old keys.old balances.old)) × (line_room (length table.old.nums.now) ≤ length out.old) }
{
    let last = feed::finish(
        table, names, keys, balances, bytes, s.console, s.mark, out, 0,
    );
    io::write_all(1, scan::first_bytes(out, last.size))
}

fn main(rt: HostRuntime) {
    let mut stdin = rt.stdin();
    let mut nums = empty_nums();
    let mut numbers = empty_numbers();
    let mut dates = empty_dates();
    let mut table = Rows {
        nums: &mut nums,
        numbers: &mut numbers,
        dates: &mut dates,
    };
    let mut names = columns::empty_names();
    let mut keys = columns::empty_keys();
    let mut balances = columns::empty_balances();
    let mut bytes = gathering::new_bytes();
    let mut input = [0u8; 4096];
    let mut out = output_part();
    let fed = feed_all(
        &mut stdin,
        &mut table,
        &mut names,
        &mut keys,
        &mut balances,
        &mut bytes,
        &mut input,
        &mut out,
        begin(),
    );
    let written = match fed {
        Some(session) => print_last(
            &mut table,
            &mut names,
            &mut keys,
            &mut balances,
            &bytes,
            &mut out,
            session,
        ),
        None => false,
    };
    if !written {
        complain(b"session: cannot write standard output\n");
    }
}
