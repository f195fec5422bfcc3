// One account by its number and type, and what moves a balance.
ghost use Rattle.std.specs.Prelude.{◌≡◌, ◌^◌, ◌<◌, ◌≤◌, ℤ, pos, ◌+ℤ◌, ◌-ℤ◌};
ghost use Rattle.std.specs.Int.Signed.{mag, lt_z};
ghost use Rattle.table.specs.Accounts.{is_account};

use crate::Account;
use fields::number::Number;

// An account that was looked for: its place and its balance, or nothing and 0.
#[derive(Clone, Copy)]
pub struct Holding {
    pub at: Option<usize>,
    pub balance: i64,
}

// Whether a is the account of this number and type.
#[tactic(auto, unfolding(crate::specs::Accounts::is_account))]
pub fn is_account(n: Number, kind: u64, a: Account) -> bool
    ensures { result ≡ is_account n kind a }
{
    a.kind == kind && a.number.same(n)
}

// b + n
pub fn plus(b: i64, n: u64) -> i64
    requires { (mag b ≤ 10000000000000000) × (n < 1000000000) }
    ensures { (result ≡ b +ℤ pos n) × (mag result < 2 ^ 63) }
{
    b + n as i64
}

// b - n
pub fn minus(b: i64, n: u64) -> i64
    requires { (mag b ≤ 10000000000000000) × (n < 1000000000) }
    ensures { (result ≡ b -ℤ pos n) × (mag result < 2 ^ 63) }
{
    b - n as i64
}

// Whether b is less than n.
pub fn is_less(b: i64, n: u64) -> bool
    requires { n < 1000000000 }
    ensures { result ≡ lt_z b (pos n) }
{
    b < n as i64
}
