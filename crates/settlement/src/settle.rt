// A registry delivered to the gate.
ghost use Rattle.lists.specs.Rows.{SameLoan};
ghost use Rattle.std.specs.Prelude.{not, ◌&&◌, ◌≡◌, ◌≤◌, length};
ghost use Rattle.days.specs.Calendar.{is_day, day_before};
ghost use Rattle.table.specs.Lent.{rows_in};
ghost use Rattle.settlement.specs.Settle.{settle_read, settle};
ghost use Rattle.settlement.specs.SettleText.{settle_text};
ghost use Rattle.admission.specs.Delivery.{delivery_of};
ghost use Rattle.posting.specs.Steps.{Held};
ghost use Rattle.line_rows.specs.Lines.{Read};

use days::calendar::Day;
use ledger::Reply;
use line_rows::reading;
use lines::line::Line;
use table::Gate;
use table::rows::Table;

// Whether the day is a date up to the closed one.
fn is_past(closed: Day, day: Day) -> bool
    ensures { result ≡ is_day day && not (day_before closed day) }
{
    day.is_valid() && !closed.before(day)
}

// The lines of a registry without a fault: the day after the closed one is settled, one up to it only reported.
#[tactic(auto, unfolding(crate::specs::Settle::settle_read))]
pub(crate) fn settle_read(
    table: &mut Table<'_>,
    g: Gate,
    clock: [u8; 19],
    day: Day,
    lines: &[Line],
    out: &mut [u8],
) -> Reply
    requires held { Held g (rows_in table.old) 10000000000000 }
    requires read { Read lines.now × (512 ≤ length out.old) }
    ensures value { delivery_of result (rows_in table.new) out.new
        ≡ settle_read g (rows_in table.old) clock day lines.now out.old }
    ensures same_loan { SameLoan table.old table.new }
{
    let closed = g.closed;
    if day.follows(closed) {
        return closing::settle_day(table, g, clock, day, lines, out);
    }
    if is_past(closed, day) {
        return closing::report_day(table.view(), g, lines, out);
    }
    Reply {
        code: 55,
        gate: g,
        size: 0,
    }
}

// Settles by the lines of a text, read once; a fault keeps all.
pub(crate) fn settle_text(
    table: &mut Table<'_>,
    g: Gate,
    clock: [u8; 19],
    day: Day,
    s: &[u8],
    out: &mut [u8],
) -> Reply
    requires { Held g (rows_in table.old) 10000000000000 × (512 ≤ length out.old) }
    ensures value { delivery_of result (rows_in table.new) out.new
        ≡ settle_text g (rows_in table.old) clock day s.now out.old }
    ensures same_loan { SameLoan table.old table.new }
{
    let mut lines = reading::no_lines();
    match reading::read_registry(day, s, &mut lines) {
        Ok(n) => settle_read(table, g, clock, day, &lines[..n], out),
        Err(fault) => Reply {
            code: u64::from(fault),
            gate: g,
            size: 0,
        },
    }
}

// Settles a day by its registry, or only reports it; a fault keeps all.
// Rows, gate and code are as `roosteryore_settle` lends and answers them.
pub fn settle(
    table: &mut Table<'_>,
    gate: Gate,
    clock: [u8; 19],
    day: Day,
    bytes: &[u8],
    out: &mut [u8],
) -> Reply
    ensures value { delivery_of result (rows_in table.new) out.new ≡ settle gate (rows_in table.old) clock day bytes.now out.old }
    ensures same_loan { SameLoan table.old table.new }
{
    let refusal = admission::admit_gate(table.view(), gate, clock, out.len());
    if refusal != 0 {
        return Reply {
            code: refusal,
            gate,
            size: 0,
        };
    }
    settle_text(table, gate, clock, day, bytes, out)
}
