// The decision on a request, from its fault, its action and the record of its receipt.
ghost use Rattle.std.specs.Prelude.{◌≡◌};
ghost use Rattle.rules.specs.Decision.{keeps, check_code, payment_new, cancel_done, decision};

use payments::Action;

// How a receipt stands in the table. Other: its record is of another number, type, amount or date than the payment tells.
#[derive(Clone, Copy, Debug, PartialEq, Eq)]
pub enum Standing {
    Unrecorded,
    Done,
    Cancelled,
    Other,
}

// What else a decision looks at: the account is known, the table is full, its day is closed, the balance is below the amount.
#[derive(Clone, Copy)]
pub struct View {
    pub known: bool,
    pub full: bool,
    pub closed: bool,
    pub short: bool,
}

// What a decision changes: nothing, a record more, or its record cancelled.
#[derive(Clone, Copy, Debug, PartialEq, Eq)]
pub enum Change {
    Keep,
    Append,
    Revoke,
}

// The code is a number, as it goes over the wire and to C.
#[derive(Clone, Copy)]
pub struct Decided {
    pub code: u64,
    pub change: Change,
}

fn keep(code: u64) -> Decided
    ensures { result ≡ keeps code }
{
    Decided {
        code,
        change: Change::Keep,
    }
}

#[tactic(auto, unfolding(crate::specs::Decision::check_code))]
fn check_code(v: View) -> u64
    ensures { result ≡ check_code v }
{
    if !v.known {
        2
    } else if v.full {
        30
    } else {
        0
    }
}

#[tactic(auto, unfolding(crate::specs::Decision::payment_new))]
fn payment_new(v: View) -> Decided
    ensures { result ≡ payment_new v }
{
    if v.closed {
        keep(5)
    } else if !v.known {
        keep(2)
    } else if v.full {
        keep(30)
    } else {
        Decided {
            code: 0,
            change: Change::Append,
        }
    }
}

#[tactic(auto, unfolding(crate::specs::Decision::cancel_done))]
fn cancel_done(v: View) -> Decided
    ensures { result ≡ cancel_done v }
{
    if v.closed || v.short {
        keep(9)
    } else {
        Decided {
            code: 0,
            change: Change::Revoke,
        }
    }
}

// The answer's code and the change: a fault first, else by action and by how the receipt stands.
#[tactic(auto, unfolding(crate::specs::Decision::decision, crate::specs::Decision::decision_on, crate::specs::Decision::is_fault, crate::specs::Decision::fault_code))]
pub fn decide(fault: u64, a: Action, s: Standing, v: View) -> Decided
    ensures { result ≡ decision fault a s v }
{
    match fault {
        0 => match a {
            Action::Check => keep(check_code(v)),
            Action::Payment => match s {
                Standing::Unrecorded => payment_new(v),
                Standing::Done => keep(0),
                Standing::Cancelled => keep(7),
                Standing::Other => keep(4),
            },
            Action::Status => match s {
                Standing::Unrecorded | Standing::Other => keep(6),
                Standing::Done => keep(0),
                Standing::Cancelled => keep(7),
            },
            Action::Cancel => match s {
                Standing::Unrecorded | Standing::Other => keep(9),
                Standing::Done => cancel_done(v),
                Standing::Cancelled => keep(0),
            },
        },
        1..=5 | 31..=32 => keep(fault),
        _ => keep(31),
    }
}
