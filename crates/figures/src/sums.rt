// The sum of a gate's balances.
ghost use Rattle.std.specs.Prelude.{◌≡◌, ◌+◌, ◌≤◌, ◌+ℤ◌};
ghost use Rattle.std.specs.Int.Signed.{mag};
ghost use Rattle.table.specs.Accounts.{accounts_of};
ghost use Rattle.figures.specs.Figures.{sum_balances};
ghost use Rattle.figures.specs.Sums.{Summable, nameless};

use table::Head;

// a + b
fn plus(a: i64, b: i64) -> i64
    requires { (mag a ≤ 10000000000000000) × (mag b ≤ 10000000000000000) }
    ensures { (result ≡ a +ℤ b) × (mag result ≤ mag a + mag b + 2) }
{
    a + b
}

// The sum of the balances in use, from the last to the first.
pub(crate) fn sum_balances(balances: &[i64; 256], h: Head) -> i64
    requires { Summable (nameless h balances.now) }
    ensures { (result ≡ sum_balances (accounts_of (nameless h balances.now))) × (mag result ≤ 6000000000000000) }
{
    let mut sum = 0;
    for i in (0..h.count).rev() {
        sum = plus(balances[i], sum);
    }
    sum
}
