// The lines of the program's input, read.
ghost use Rattle.std.specs.Prelude.{◌≡◌};
ghost use Rattle.load.specs.Order.{order_read, account_read};

use dates::date;
use fields::number::Number;
use fields::{codes, number};
use texts::digits;

// The first line: what is asked for.
#[derive(Clone, Copy)]
pub struct Order {
    pub start: u64,
    pub date: [u8; 19],
    pub reason: u64,
    pub steps: u64,
}

// The line of an account.
#[derive(Clone, Copy)]
pub struct AccountLine {
    pub number: Number,
    pub kind: u64,
}

// START DATE REASON STEPS
#[tactic(auto, unfolding(crate::specs::Order::order_read))]
pub fn read_order(line: &[u8]) -> Option<Order>
    ensures { result ≡ order_read line.now }
{
    if line_fields::count_fields(line) != 4 {
        return None;
    }
    let start = digits::read_digits(line_fields::field_at(line, 0), 20)?;
    let date = date::read_date(line_fields::field_at(line, 1))?;
    let reason = codes::read_reason(line_fields::field_at(line, 2))?;
    let steps = digits::read_digits(line_fields::field_at(line, 3), 20)?;
    Some(Order {
        start,
        date,
        reason,
        steps,
    })
}

// NUMBER TYPE
#[tactic(auto, unfolding(crate::specs::Order::account_read))]
pub fn read_account(line: &[u8]) -> Option<AccountLine>
    ensures { result ≡ account_read line.now }
{
    if line_fields::count_fields(line) != 2 {
        return None;
    }
    let number = number::read_number(line_fields::field_at(line, 0))?;
    let kind = codes::read_kind(line_fields::field_at(line, 1))?;
    Some(AccountLine { number, kind })
}
