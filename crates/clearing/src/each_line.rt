// The lines of a registry, in their order.
ghost use Rattle.lists.specs.Rows.{SameLoan};
ghost use Rattle.std.specs.Prelude.{◌≡◌, length};
ghost use Rattle.index.specs.Index.{Chained};
ghost use Rattle.table.specs.Lent.{rows_in};
ghost use Rattle.directory.specs.Directory.{Listed};
ghost use Rattle.posting.specs.Posting.{Ledger, ledger_of};
ghost use Rattle.posting.specs.Lookup.{receipt_at};
ghost use Rattle.clearing.specs.Clearing.{settle_lines};
ghost use Rattle.posting.specs.Steps.{Held, Left};
ghost use Rattle.line_rows.specs.Lines.{Read};

use lines::line::Line;
use posting::{applying, lookup, verdict};
use table::rows::Table;
use table::{Gate, accounts};

// Settles the lines, one after the other: each is judged and applied, and what is due is credited on the gate's own copy.
// Not put into its caller: its copies of the gate and those of the other walk over the day lie in the stack one or the other.
#[inline(never)]
pub fn settle_lines(
    table: &mut Table<'_>,
    g: Gate,
    clock: [u8; 19],
    lines: &[Line],
    names: &[[u8; 30]],
    keys: &[[u64; 3]],
    heads: &mut [u16],
    next: &mut [u16],
) -> Gate
    requires held { Held g (rows_in table.old) 10000000000000 × Read lines.now }
    requires listed { Listed names.now keys.now g }
    requires chained { Chained (receipt_at table.old.nums.now) 0 g.used heads.old next.old × (4096 ≡ length next.old) }
    ensures left { Left (rows_in table.old)
        (settle_lines clock (length table.old.nums.now) lines.now (ledger_of g (rows_in table.old)))
        result (rows_in table.new) }
    ensures held_2 { Held result (rows_in table.new) 11000000000000 }
    ensures fact { ◌≡◌ {A = Ledger} (settle_lines clock (length table.old.nums.now) lines.now (ledger_of g (rows_in table.old)))
        (ledger_of result (rows_in table.new)) }
    ensures listed_2 { Listed names.now keys.now result }
    ensures chained_2 { Chained (receipt_at table.new.nums.now) 0 result.used heads.new next.new }
    ensures same_loan { SameLoan table.old table.new }
{
    let mut gate = g;
    for x in lines {
        let used = gate.used;
        let v = verdict::judge(table.view(), used, names, keys, *x, heads, next);
        let due = applying::apply(table, used, names, keys, clock, *x, v);
        lookup::follow(table.view().nums, used, due.used, heads, next);
        gate.used = due.used;
        let Some(at) = due.account else {
            continue;
        };
        let a = &mut gate.accounts[at];
        a.balance = accounts::plus(a.balance, x.amount);
    }
    gate
}
