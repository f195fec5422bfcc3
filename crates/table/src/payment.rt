// A record against the payment that it should be of.
ghost use Rattle.std.specs.Prelude.{◌≡◌};
ghost use Rattle.table.specs.Table.{same_payment};

use crate::Record;
use dates::date;
use fields::number::Number;

// Whether a record is of this number, type, amount and date.
#[tactic(auto, unfolding(crate::specs::Table::same_payment))]
pub fn same_payment(n: Number, kind: u64, amount: u64, date: [u8; 19], r: Record) -> bool
    ensures { result ≡ same_payment n kind amount date r }
{
    r.number.same(n) && r.kind == kind && r.amount == amount && date::same_date(r.date, date)
}
