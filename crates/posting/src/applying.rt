// What one line of a registry does to the table, and what is due on its account.
ghost use Rattle.lists.specs.Rows.{SameLoan};
ghost use Rattle.std.specs.Prelude.{◌≡◌, ◌<◌, ◌≤◌, length};
ghost use Rattle.table.specs.Table.{record_at, rows_with, Whole, SameLengths, SameSizes};
ghost use Rattle.table.specs.Lent.{rows_in};
ghost use Rattle.directory.specs.Directory.{Keyed};
ghost use Rattle.planning.specs.Plan.{Within};
ghost use Rattle.posting.specs.Posting.{restored, posted_record};
ghost use Rattle.posting.specs.Steps.{Placed, Applied};

use crate::verdict::Verdict;
use ledger::change;
use lines::line::Line;
use payments::Details;
use table::rows::Table;
use table::{Gate, Record, rows};

// The account that a line's amount is due on, and how many records the table has then.
#[derive(Clone, Copy)]
pub struct Due {
    pub account: Option<usize>,
    pub used: usize,
}

// A record that is done again.
#[tactic(auto, unfolding(crate::specs::Posting::restored))]
fn restore_record(r: Record) -> Record
    ensures { result ≡ restored r }
{
    Record {
        state: table::DONE,
        cancel: [0u8; 19],
        ..r
    }
}

// The record of a line that is posted now, by a gate with so many records.
#[tactic(auto, unfolding(crate::specs::Posting::posted_record))]
fn posted_record(used: usize, clock: [u8; 19], x: Line) -> Record
    requires { used < 4096 }
    ensures { (g : Gate) → g.used ≡ used → result ≡ posted_record g clock x }
{
    let Line {
        number,
        kind,
        date,
        amount,
        receipt,
    } = x;
    let q = Details {
        receipt,
        number,
        kind,
        amount,
        date,
    };
    change::make_record(used, clock, q)
}

// The record at i done again.
fn restore(table: &mut Table<'_>, i: usize)
    requires { (i < length table.old.nums.now) × (i < length table.old.numbers.now) × (i < length table.old.dates.now) }
    ensures value { rows_in table.new ≡ rows_with (rows_in table.old) i (restored (record_at (rows_in table.old) i)) }
    ensures same_loan { SameLoan table.old table.new }
{
    let r = rows::load(table.view(), i);
    rows::store(table, i, restore_record(r));
}

// A record more.
fn post(table: &mut Table<'_>, used: usize, clock: [u8; 19], x: Line)
    requires { (used < length table.old.nums.now) × (used < length table.old.numbers.now) × (used < length table.old.dates.now) × (used < 4096) }
    ensures value { (g : Gate) → g.used ≡ used → rows_in table.new ≡ rows_with (rows_in table.old) used (posted_record g clock x) }
    ensures sizes { SameSizes (rows_in table.old) (rows_in table.new) }
    ensures same_loan { SameLoan table.old table.new }
{
    rows::store(table, used, posted_record(used, clock, x));
}

// Makes the change that a verdict says, but for the balance.
pub fn apply(
    table: &mut Table<'_>,
    used: usize,
    names: &[[u8; 30]],
    keys: &[[u64; 3]],
    clock: [u8; 19],
    x: Line,
    v: Verdict,
) -> Due
    requires whole { Whole (rows_in table.old) used × SameLengths (rows_in table.old) × (length table.old.nums.now ≤ 4096) }
    requires keyed { Keyed names.now keys.now × Placed v used (length table.old.nums.now) (length names.now) }
    ensures applied { Applied names.now keys.now used (rows_in table.old) clock x v result (rows_in table.new) }
    ensures within { Within result.account (length names.now) }
    ensures sizes { SameSizes (rows_in table.old) (rows_in table.new) }
    ensures same_loan { SameLoan table.old table.new }
{
    match v {
        Verdict::Keeps | Verdict::Unposted => Due {
            account: None,
            used,
        },
        Verdict::Restores(i) => {
            restore(table, i);
            Due {
                account: directory::find(names, keys, x.number, x.kind),
                used,
            }
        }
        Verdict::Posts(a) => {
            post(table, used, clock, x);
            Due {
                account: Some(a),
                used: used + 1,
            }
        }
    }
}
