// The verdict on one line of a registry: what it does to the table.
ghost use Rattle.std.specs.Prelude.{◌≡◌, cond, length};
ghost use Rattle.index.specs.Index.{Chained};
ghost use Rattle.table.specs.Table.{records_of, Whole};
ghost use Rattle.table.specs.Lent.{rows_seen};
ghost use Rattle.table.specs.Daily.{is_done};
ghost use Rattle.posting.specs.Posting.{post_verdict, verdict_of, Keeps, Restores};
ghost use Rattle.posting.specs.Lookup.{receipt_at};
ghost use Rattle.directory.specs.Directory.{Keyed, Listed};

use crate::lookup;
use crate::lookup::Sought;
use lines::line::Line;
use table::rows::TableView;
use table::{Gate, Record, rows};

// The record that it matches is done, or at a place to be done again; it is posted to an account; or none of these.
#[derive(Clone, Copy, PartialEq, Eq)]
pub enum Verdict {
    Keeps,
    Restores(usize),
    Posts(usize),
    Unposted,
}

// The verdict on a line that matches the record at i.
fn judge_match(r: Record, i: usize) -> Verdict
    ensures { result ≡ cond (is_done r) Keeps (Restores i) }
{
    if r.state == table::DONE {
        Verdict::Keeps
    } else {
        Verdict::Restores(i)
    }
}

// The verdict on a line that matches none, by the record of its receipt, its account, and whether the table is full.
fn judge_new(recorded: Option<usize>, account: Option<usize>, full: bool) -> Verdict
    ensures { result ≡ post_verdict recorded account full }
{
    match (recorded, account) {
        (None, Some(a)) if !full => Verdict::Posts(a),
        _ => Verdict::Unposted,
    }
}

// The verdict on a line, by the first `used` records and the accounts; nothing is changed yet.
pub fn judge(
    table: TableView<'_>,
    used: usize,
    names: &[[u8; 30]],
    keys: &[[u64; 3]],
    x: Line,
    heads: &[u16],
    next: &[u16],
) -> Verdict
    requires whole { Whole (rows_seen table) used × Keyed names.now keys.now }
    requires chained { Chained (receipt_at table.nums.now) 0 used heads.now next.now }
    ensures { (g : Gate) → Listed names.now keys.now g → g.used ≡ used
        → result ≡ verdict_of g (records_of (rows_seen table.entry) g.used) (length table.entry.nums.now) x }
{
    let matched = Sought::Matched;
    match lookup::find(table, used, heads, next, matched, x) {
        Some(i) => judge_match(rows::load(table, i), i),
        None => {
            let same = Sought::SameReceipt;
            let recorded = lookup::find(table, used, heads, next, same, x);
            let account = directory::find(names, keys, x.number, x.kind);
            judge_new(recorded, account, table.nums.len() <= used)
        }
    }
}
