// Row 68 of the gate: whether its accounts and its closed day are in their ranges, and what a record holds by itself.
ghost use Rattle.std.specs.Prelude.{true, ◌&&◌, ◌≡◌, [], ◌<◌, ◌≤◌, length};
ghost use Rattle.lists.specs.Lists.{all_from};
ghost use Rattle.table.specs.Accounts.{accounts_of};
ghost use Rattle.table.specs.Columns.{gate_of, columns_seen};
ghost use Rattle.table.specs.Table.{record_from};
ghost use Rattle.validity.specs.Valid.{near, account_good, gate_good, state_good, ranges_good, authcode_good, Sound};

use crate::slots;
use dates::date;
use fields::{amount, codes};
use table::columns::AccountsView;
use table::{ACCOUNTS_MOST, Account, Head, columns};

// The bounds of a balance: 10^13 either side.
const BALANCE_MOST: i64 = 10000000000000;

const BALANCE_LEAST: i64 = -10000000000000;

// Whether a balance is no further from 0 than 10^13.
fn is_near(b: i64) -> bool
    ensures { result ≡ near b }
{
    BALANCE_LEAST <= b && b <= BALANCE_MOST
}

// Whether an account is in its ranges.
#[tactic(auto, unfolding(crate::specs::Valid::account_good))]
fn account_good(a: Account) -> bool
    ensures { result ≡ account_good a }
{
    a.number.is_valid() && codes::is_kind(a.kind) && is_near(a.balance)
}

// Whether each account in use is in its ranges; its place is the hint of its slot.
fn accounts_good(accounts: AccountsView<'_>, h: Head, hints: &mut [u8; 4096]) -> bool
    requires { h.count ≤ 256 }
    ensures { result ≡ all_from (λ i a. account_good a) 0 (accounts_of (gate_of h (columns_seen accounts.entry))) }
{
    for i in 0..h.count {
        let a = columns::account_at(accounts, i);
        if !account_good(a) {
            return false;
        }
        hints[slots::slot(a.number, a.kind)] = i as u8;
    }
    true
}

// Whether the gate is in its ranges; the hints of its accounts are written.
#[tactic(auto, unfolding(crate::specs::Valid::gate_good))]
pub(crate) fn gate_good(accounts: AccountsView<'_>, h: Head, hints: &mut [u8; 4096]) -> bool
    ensures value { result ≡ gate_good (gate_of h (columns_seen accounts.entry)) }
    ensures sound { result ≡ true → Sound (gate_of h (columns_seen accounts.entry)) }
{
    h.count <= ACCOUNTS_MOST && h.closed.is_valid() && accounts_good(accounts, h, hints)
}

// Whether a record is done and has no cancel date, or cancelled and has one.
#[tactic(auto, unfolding(crate::specs::Valid::state_good))]
fn state_good(w: [u64; 6], d: [[u8; 19]; 3]) -> bool
    ensures { result ≡ state_good (record_from w [] d) }
{
    match w[4] {
        table::DONE => date::is_empty(d[2]),
        table::CANCELLED => date::is_written(d[2]),
        _ => false,
    }
}

// Whether a record's receipt, amount, dates and state are in their ranges.
#[tactic(auto, unfolding(crate::specs::Valid::ranges_good))]
fn ranges_good(w: [u64; 6], d: [[u8; 19]; 3]) -> bool
    ensures { result ≡ ranges_good (record_from w [] d) }
{
    codes::is_receipt(w[0])
        && amount::is_amount(w[3])
        && date::is_written(d[0])
        && date::is_written(d[1])
        && state_good(w, d)
}

// Whether the numbers and dates of a record are in their ranges, and it has the authcode of its place; whatever its number is.
#[tactic(auto, unfolding(crate::specs::Valid::authcode_good))]
pub(crate) fn record_good(i: usize, w: [u64; 6], d: [[u8; 19]; 3]) -> bool
    requires { i < 4096 }
    ensures value { result ≡ authcode_good i (record_from w [] d) && ranges_good (record_from w [] d) }
    ensures w_len { (length w ≡ 6) × (length d ≡ 3) }
{
    w[5] == i as u64 + 1 && ranges_good(w, d)
}
