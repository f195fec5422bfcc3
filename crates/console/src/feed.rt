// A session's input, fed in parts, or whole. Accounts and the bytes of a line that has not ended are lent.
ghost use Rattle.std.specs.Prelude.{◌≡◌, ◌+◌, ◌≤◌, length};
ghost use Rattle.lists.specs.Rows.{SameLoan};
ghost use Rattle.table.specs.Lent.{rows_in};
ghost use Rattle.table.specs.Columns.{gate_of, columns_of};
ghost use Rattle.figures.specs.Sums.{Summable};
ghost use Rattle.gathering.specs.Held.{held_of};
ghost use Rattle.orders.specs.Order.{console_of};
ghost use Rattle.console.specs.Feed.{line_room};
ghost use Rattle.console.specs.Parts.{part_of, feed_part, last_part, run_of, run_all, EndedAt};

use crate::{show, start};
use gathering::Mark;
use orders::{ConsoleHead, turn};
use table::columns;
use table::rows::Table;
use texts::scan;

// A session between two parts of its input: its console, where the held line stands, how many bytes the last part printed, and how many of its bytes were taken.
#[derive(Clone, Copy)]
pub struct Part {
    pub console: ConsoleHead,
    pub mark: Mark,
    pub size: usize,
    pub taken: usize,
}

// The console after a line, and the cursor behind what it printed.
#[derive(Clone, Copy)]
pub(crate) struct Printed {
    pub console: ConsoleHead,
    pub size: usize,
}

// The line that is held has ended: it does its turn and prints at the cursor.
pub(crate) fn end_line(
    table: &mut Table<'_>,
    names: &mut [[u8; 30]; 256],
    keys: &mut [[u64; 2]; 256],
    balances: &mut [i64; 256],
    x: ConsoleHead,
    bytes: &[u8; 2177],
    m: Mark,
    out: &mut [u8],
    at: usize,
) -> Printed
    requires { Summable (gate_of x.head (columns_of names.old keys.old balances.old)) × (at + line_room (length table.old.nums.now) ≤ length out.old) }
    ensures ended_at { EndedAt (console_of x (columns_of names.old keys.old balances.old)) (held_of bytes.now m) (rows_in table.old) out.old at
        (console_of result.console (columns_of names.new keys.new balances.new)) (rows_in table.new) out.new result.size }
    ensures summable { Summable (gate_of result.console.head (columns_of names.new keys.new balances.new)) }
    ensures same_loan { SameLoan table.old table.new }
{
    let line = scan::first_bytes(bytes, m.len);
    let r = turn::line_turn(table, names, keys, balances, x, line);
    let size = show::write_shown(table.view(), balances, r, out, at);
    Printed {
        console: r.console,
        size,
    }
}

// Feeds a part of the input; what its lines print goes to the start of the buffer. Where that has no more room for a line, the rest is left to be fed again.
pub fn feed(
    table: &mut Table<'_>,
    names: &mut [[u8; 30]; 256],
    keys: &mut [[u64; 2]; 256],
    balances: &mut [i64; 256],
    bytes: &mut [u8; 2177],
    x: ConsoleHead,
    m: Mark,
    input: &[u8],
    out: &mut [u8],
) -> Part
    requires { Summable (gate_of x.head (columns_of names.old keys.old balances.old)) }
    ensures out_after { part_of result (columns_of names.new keys.new balances.new) bytes.new (rows_in table.new) out.new
        ≡ feed_part (console_of x (columns_of names.old keys.old balances.old)) (held_of bytes.old m) (rows_in table.old) input.now out.old }
    ensures summable { Summable (gate_of result.console.head (columns_of names.new keys.new balances.new)) }
    ensures places { length table.new.nums.now ≡ length table.old.nums.now }
    ensures same_loan { SameLoan table.old table.new }
{
    let need = show::line_room(table.nums.len());
    let mut console = x;
    let mut mark = m;
    let mut size: usize = 0;
    let mut at: usize = 0;
    while show::goes_on(at, input.len(), size, out.len(), need) {
        let g = gathering::gather(bytes, mark, input, at);
        if !g.ended {
            return Part {
                console,
                mark: g.mark,
                size,
                taken: g.at,
            };
        }
        let s = end_line(
            table, names, keys, balances, console, bytes, g.mark, out, size,
        );
        console = s.console;
        size = s.size;
        mark = gathering::new_mark();
        at = g.at;
    }
    Part {
        console,
        mark,
        size,
        taken: at,
    }
}

// The end of the input: a last line without its end is read too, and prints at the cursor.
#[tactic(auto, using(crate::proofs::PartLaws::finish_laws))]
pub fn finish(
    table: &mut Table<'_>,
    names: &mut [[u8; 30]; 256],
    keys: &mut [[u64; 2]; 256],
    balances: &mut [i64; 256],
    bytes: &[u8; 2177],
    x: ConsoleHead,
    m: Mark,
    out: &mut [u8],
    at: usize,
) -> Part
    requires { Summable (gate_of x.head (columns_of names.old keys.old balances.old)) × (at + line_room (length table.old.nums.now) ≤ length out.old) }
    ensures value { part_of result (columns_of names.new keys.new balances.new) bytes.now (rows_in table.new) out.new
        ≡ last_part (console_of x (columns_of names.old keys.old balances.old)) (held_of bytes.now m) (rows_in table.old) out.old at }
    ensures same_loan { SameLoan table.old table.new }
{
    if m.len == 0 {
        return Part {
            console: x,
            mark: m,
            size: at,
            taken: 0,
        };
    }
    let s = end_line(table, names, keys, balances, x, bytes, m, out, at);
    Part {
        console: s.console,
        mark: gathering::new_mark(),
        size: s.size,
        taken: 0,
    }
}

// Runs a whole session, and tells how many bytes it printed; the output has to have room for what a line can print, at each byte and once more.
pub fn run_session(table: &mut Table<'_>, input: &[u8], out: &mut [u8]) -> Option<usize>
    ensures value { run_of result (rows_in table.new) out.new ≡ run_all (rows_in table.old) input.now out.old }
    ensures same_loan { SameLoan table.old table.new }
{
    if out.len() / show::line_room(table.nums.len()) <= input.len() {
        return None;
    }
    let mut names = columns::empty_names();
    let mut keys = columns::empty_keys();
    let mut balances = columns::empty_balances();
    let mut bytes = gathering::new_bytes();
    let s = feed(
        table,
        &mut names,
        &mut keys,
        &mut balances,
        &mut bytes,
        start::new_console(),
        gathering::new_mark(),
        input,
        out,
    );
    let last = finish(
        table,
        &mut names,
        &mut keys,
        &mut balances,
        &bytes,
        s.console,
        s.mark,
        out,
        s.size,
    );
    Some(last.size)
}
