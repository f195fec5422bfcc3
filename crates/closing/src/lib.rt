#![tactic(auto)]
// A day by the lines of its registry: settled and closed, or only reported.
ghost use Rattle.lists.specs.Rows.{SameLoan};
ghost use Rattle.std.specs.Prelude.{◌≡◌, ◌≤◌, length};
ghost use Rattle.index.specs.Index.{Chained};
ghost use Rattle.table.specs.Table.{records_of, rows_from, Whole};
ghost use Rattle.table.specs.Lent.{rows_in, rows_seen};
ghost use Rattle.clearing.specs.Clearing.{settle_lines, swept};
ghost use Rattle.closing.specs.Closing.{settle_day, reported};
ghost use Rattle.admission.specs.Delivery.{delivery_of};
ghost use Rattle.posting.specs.Posting.{Ledger, ledger_of};
ghost use Rattle.posting.specs.Lookup.{receipt_at};
ghost use Rattle.posting.specs.Steps.{Held};
ghost use Rattle.line_rows.specs.Lines.{Read};

use clearing::{each_line, report, sweeping};
use days::calendar::Day;
use ledger::Reply;
use lines::line::Line;
use posting::lookup;
use registry::text;
use table::Gate;
use table::rows::{Table, TableView};

// Settles the lines and sweeps the day, with the table's receipts in chains. The accounts are listed once, for only their balances move; so are the lines chained.
fn clear_day(
    table: &mut Table<'_>,
    g: Gate,
    clock: [u8; 19],
    day: Day,
    lines: &[Line],
    heads: &mut [u16],
    next: &mut [u16],
) -> Gate
    requires held { Held g (rows_in table.old) 10000000000000 × Read lines.now }
    requires chained { Chained (receipt_at table.old.nums.now) 0 g.used heads.old next.old × (4096 ≡ length next.old) }
    ensures fact { ◌≡◌ {A = Ledger} (swept clock day lines.now
        (settle_lines clock (length table.old.nums.now) lines.now (ledger_of g (rows_in table.old))))
        (ledger_of result (rows_in table.new)) }
    ensures dates_value { rows_in table.new ≡ rows_from (rows_in table.old) (records_of (rows_in table.new) result.used) }
    ensures whole { Whole (rows_in table.new) result.used }
    ensures chained_2 { Chained (receipt_at table.new.nums.now) 0 result.used heads.new next.new }
    ensures same_loan { SameLoan table.old table.new }
{
    let n = g.count;
    let mut names = directory::empty_names();
    let mut keys = directory::empty_keys();
    directory::fill(&mut names, &mut keys, g);
    let mut firsts = index::no_heads();
    let mut afters = [0u16; text::LINES_MOST];
    sweeping::link_lines(lines, &mut firsts, &mut afters);
    let a = each_line::settle_lines(table, g, clock, lines, &names[..n], &keys[..n], heads, next);
    sweeping::sweep(
        table,
        a,
        clock,
        day,
        lines,
        &names[..n],
        &keys[..n],
        &firsts,
        &afters,
    )
}

// Settles the day after the closed one by the lines of its registry, closes it and writes its report.
pub fn settle_day(
    table: &mut Table<'_>,
    g: Gate,
    clock: [u8; 19],
    day: Day,
    lines: &[Line],
    out: &mut [u8],
) -> Reply
    requires held { Held g (rows_in table.old) 10000000000000 }
    requires read { Read lines.now × (512 ≤ length out.old) }
    ensures value { delivery_of result (rows_in table.new) out.new
        ≡ settle_day g (rows_in table.old) clock day lines.now out.old }
    ensures same_loan { SameLoan table.old table.new }
{
    let mut heads = index::no_heads();
    let mut next = index::no_links();
    lookup::link_records(table.view().nums, g.used, &mut heads, &mut next);
    let b = clear_day(table, g, clock, day, lines, &mut heads, &mut next);
    report::write_report(table.view(), b.used, &heads, &next, lines, out);
    let mut gate = b;
    gate.closed = day;
    Reply {
        code: 0,
        gate,
        size: lines.len(),
    }
}

// Writes the report of a day that was closed before; nothing is settled.
pub fn report_day(table: TableView<'_>, g: Gate, lines: &[Line], out: &mut [u8]) -> Reply
    requires held { Held g (rows_seen table) 10000000000000 }
    requires read { Read lines.now × (512 ≤ length out.old) }
    ensures { delivery_of result (rows_seen table.entry) out.new
        ≡ reported g (rows_seen table.entry) lines.now out.old }
{
    let used = g.used;
    let mut heads = index::no_heads();
    let mut next = index::no_links();
    lookup::link_records(table.nums, used, &mut heads, &mut next);
    report::write_report(table, used, &heads, &next, lines, out);
    Reply {
        code: 0,
        gate: g,
        size: lines.len(),
    }
}
