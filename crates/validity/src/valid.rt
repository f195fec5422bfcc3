// Row 68: whether a lent gate and table are in their ranges. One pass over the records in use.
ghost use Rattle.std.specs.Prelude.{true, ◌&&◌, ◌≡◌, ◌<◌, ◌≤◌, ltb, length};
ghost use Rattle.lists.specs.Lists.{is_found, all_from};
ghost use Rattle.table.specs.Table.{records_of, Whole};
ghost use Rattle.table.specs.Lent.{rows_seen};
ghost use Rattle.table.specs.Accounts.{is_account, accounts_of, find_account};
ghost use Rattle.table.specs.Columns.{gate_of, columns_seen};
ghost use Rattle.validity.specs.Valid.{record_good, table_good, Sound, Ready};

use crate::{ranges, slots};
use fields::number::Number;
use table::columns::AccountsView;
use table::rows::TableView;
use table::{Account, Head, accounts, columns};

// Whether the guessed account at `at` is in use and the one that is looked for.
fn guess_fits(at: usize, count: usize, n: Number, kind: u64, a: Account) -> bool
    ensures { result ≡ ltb at count && is_account n kind a }
{
    at < count && accounts::is_account(n, kind, a)
}

// Whether the account of a number and a type is known.
fn is_known(accounts: AccountsView<'_>, h: Head, n: Number, kind: u64) -> bool
    requires { h.count ≤ 256 }
    ensures { result ≡ is_found (find_account n kind (accounts_of (gate_of h (columns_seen accounts.entry)))) }
{
    columns::find_account(accounts, h, n, kind).is_some()
}

// Whether each record in use is in its ranges. Its account is looked up only where the hint fails.
fn records_good(
    table: TableView<'_>,
    accounts: AccountsView<'_>,
    h: Head,
    hints: &[u8; 4096],
) -> bool
    requires used_in_bounds { (h.used ≤ length table.nums.now) × (h.used ≤ length table.numbers.now) × (h.used ≤ length table.dates.now) }
    requires sound { Sound (gate_of h (columns_seen accounts)) × (h.used ≤ 4096) }
    ensures value { result ≡ all_from (record_good (gate_of h (columns_seen accounts.entry))) 0 (records_of (rows_seen table.entry) h.used) }
    ensures whole { result ≡ true → Whole (rows_seen table.entry) h.used }
{
    for i in 0..h.used {
        let w = table.nums[i];
        let d = table.dates[i];
        if !ranges::record_good(i, w, d) {
            return false;
        }
        let n = Number {
            bytes: table.numbers[i],
            len: w[1] as usize,
        };
        let at = usize::from(hints[slots::slot(n, w[2])]);
        let a = columns::account_at(accounts, at);
        if !guess_fits(at, h.count, n, w[2], a) && !is_known(accounts, h, n, w[2]) {
            return false;
        }
    }
    true
}

// Whether a gate, its accounts lent in columns, and its table are in their ranges.
pub fn table_good(table: TableView<'_>, accounts: AccountsView<'_>, h: Head) -> bool
    ensures value { result ≡ table_good (gate_of h (columns_seen accounts.entry)) (rows_seen table.entry) }
    ensures ready { result ≡ true → Ready (gate_of h (columns_seen accounts.entry)) (rows_seen table.entry) }
{
    if !table.is_lent(h.used) {
        return false;
    }
    let mut hints = [0u8; 4096];
    ranges::gate_good(accounts, h, &mut hints) && records_good(table, accounts, h, &hints)
}
