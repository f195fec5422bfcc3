// The report: a byte for each line, 1 where it stands done in the table.
ghost use Rattle.std.specs.Prelude.{◌≡◌, cond, ◌≤◌, length};
ghost use Rattle.texts.specs.Lists.{over};
ghost use Rattle.index.specs.Index.{Chained};
ghost use Rattle.table.specs.Table.{records_of};
ghost use Rattle.table.specs.Lent.{rows_seen};
ghost use Rattle.posting.specs.Lookup.{receipt_at};
ghost use Rattle.clearing.specs.Clearing.{any_done, report_of};

use lines::line::Line;
use posting::lookup;
use posting::lookup::Sought;
use table::rows::TableView;

// Whether the line matches a done record.
fn any_done(table: TableView<'_>, used: usize, heads: &[u16], next: &[u16], x: Line) -> bool
    requires used_in_bounds { (used ≤ length table.nums.now) × (used ≤ length table.numbers.now) × (used ≤ length table.dates.now) }
    requires chained { Chained (receipt_at table.nums.now) 0 used heads.now next.now }
    ensures { result ≡ any_done x (records_of (rows_seen table.entry) used) }
{
    let done = Sought::MatchedDone;
    lookup::find(table, used, heads, next, done, x).is_some()
}

// The byte of a line.
fn mark(done: bool) -> u8
    ensures { result ≡ cond done 49 48 }
{
    if done { b'1' } else { b'0' }
}

// Writes the report of the lines.
pub fn write_report(
    table: TableView<'_>,
    used: usize,
    heads: &[u16],
    next: &[u16],
    lines: &[Line],
    out: &mut [u8],
)
    requires used_in_bounds { (used ≤ length table.nums.now) × (used ≤ length table.numbers.now) × (used ≤ length table.dates.now) × (length lines.now ≤ length out.old) }
    requires chained { Chained (receipt_at table.nums.now) 0 used heads.now next.now }
    ensures { out.new ≡ over out.old 0 (report_of lines.now (records_of (rows_seen table.entry) used)) }
{
    for (i, x) in lines.iter().enumerate() {
        out[i] = mark(any_done(table, used, heads, next, *x));
    }
}
