// The sweep: what is done on the day and stands in no line is cancelled.
ghost use Rattle.lists.specs.Rows.{SameLoan};
ghost use Rattle.std.specs.Prelude.{◌≡◌, ℕ, ◌<◌, ◌≤◌, length, get_or};
ghost use Rattle.index.specs.Index.{Chained};
ghost use Rattle.table.specs.Table.{rows_with};
ghost use Rattle.table.specs.Lent.{rows_in};
ghost use Rattle.table.specs.Accounts.{find_account};
ghost use Rattle.directory.specs.Directory.{holders_of, Keyed, Listed};
ghost use Rattle.ledger.specs.Change.{revoked};
ghost use Rattle.posting.specs.Posting.{Ledger, ledger_of};
ghost use Rattle.clearing.specs.Clearing.{any_matches, is_stray, swept};
ghost use Rattle.posting.specs.Steps.{Held, Left};
ghost use Rattle.clearing.specs.Steps.{receipt_in};
ghost use Rattle.line_rows.specs.Lines.{Read};

use days::calendar::Day;
use ledger::change;
use lines::line::Line;
use posting::matching;
use table::rows::Table;
use table::{Gate, Record, accounts, daily, rows};

// Chains the lines by their receipts, from the last.
pub fn link_lines(lines: &[Line], heads: &mut [u16], next: &mut [u16])
    requires lines_in_bounds { (length lines.now ≤ 4096) × (length lines.now ≤ length next.old) }
    requires heads_len { (length heads.old ≡ 8192) × ((s : ℕ) → get_or heads.old s 0 ≡ 0) }
    ensures { Chained (receipt_in lines.now) 0 (length lines.now) heads.new next.new }
{
    for i in (0..lines.len()).rev() {
        index::push(heads, next, i, lines[i].receipt);
    }
}

// Whether any line matches the record: only those of its receipt's slot are looked at.
fn any_matches(lines: &[Line], heads: &[u16], next: &[u16], r: Record) -> bool
    requires { Chained (receipt_in lines.now) 0 (length lines.now) heads.now next.now }
    ensures { result ≡ any_matches lines.now r }
{
    let mut at = index::first(heads, r.receipt);
    while 0 < at {
        let j = at - 1;
        if matching::matches_record(lines[j], r) {
            return true;
        }
        at = index::after(next, j);
    }
    false
}

// Whether a record is done, of the day, and matched by no line.
#[tactic(auto, unfolding(crate::specs::Clearing::is_stray))]
fn is_stray(r: Record, day: Day, lines: &[Line], heads: &[u16], next: &[u16]) -> bool
    requires { Chained (receipt_in lines.now) 0 (length lines.now) heads.now next.now }
    ensures { result ≡ is_stray day lines.now r }
{
    daily::stands_on(r, day, table::DONE) && !any_matches(lines, heads, next, r)
}

// Cancels the record r at i; its account, where it is known.
fn revoke_at(
    table: &mut Table<'_>,
    clock: [u8; 19],
    r: Record,
    i: usize,
    names: &[[u8; 30]],
    keys: &[[u64; 3]],
) -> Option<usize>
    requires { (i < length table.old.nums.now) × (i < length table.old.numbers.now) × (i < length table.old.dates.now) × Keyed names.now keys.now }
    ensures dates_value { rows_in table.new ≡ rows_with (rows_in table.old) i (revoked clock r) }
    ensures value { result ≡ find_account r.number r.kind (holders_of names.now keys.now) }
    ensures same_loan { SameLoan table.old table.new }
{
    rows::store(table, i, change::revoke_record(clock, r));
    directory::find(names, keys, r.number, r.kind)
}

// Sweeps every used record; what is cancelled is debited on the gate's own copy.
// Not put into its caller: its copies of the gate and those of the other walk over the day lie in the stack one or the other.
#[inline(never)]
pub fn sweep(
    table: &mut Table<'_>,
    g: Gate,
    clock: [u8; 19],
    day: Day,
    lines: &[Line],
    names: &[[u8; 30]],
    keys: &[[u64; 3]],
    heads: &[u16],
    next: &[u16],
) -> Gate
    requires held { Held g (rows_in table.old) 11000000000000 × Read lines.now }
    requires listed { Listed names.now keys.now g }
    requires chained { Chained (receipt_in lines.now) 0 (length lines.now) heads.now next.now }
    ensures left { Left (rows_in table.old)
        (swept clock day lines.now (ledger_of g (rows_in table.old)))
        result (rows_in table.new) }
    ensures held_2 { Held result (rows_in table.new) 16000000000000 }
    ensures fact { ◌≡◌ {A = Ledger} (swept clock day lines.now (ledger_of g (rows_in table.old)))
        (ledger_of result (rows_in table.new)) }
    ensures same_loan { SameLoan table.old table.new }
{
    let mut gate = g;
    for i in 0..g.used {
        let r = rows::load(table.view(), i);
        if !is_stray(r, day, lines, heads, next) {
            continue;
        }
        let Some(at) = revoke_at(table, clock, r, i, names, keys) else {
            continue;
        };
        let a = &mut gate.accounts[at];
        a.balance = accounts::minus(a.balance, r.amount);
    }
    gate
}
