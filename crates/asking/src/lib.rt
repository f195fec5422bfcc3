#![tactic(auto)]
// What the agent may ask about an entry, the request it makes, and the entry that it leaves.
ghost use Rattle.std.specs.Prelude.{◌≡◌};
ghost use Rattle.asking.specs.Asking.{may_write, written_entry, request_of, check_of, forms_good, is_open};

use book::{Book, Entry, State, states};
use daybook::frozen;
use fields::codes;
use fields::number::Number;
use message::request::Asked;
use payments::Action;

// Whether the state allows the writing.
#[tactic(auto, unfolding(crate::specs::Asking::may_write))]
fn may_write(a: Action, s: State) -> bool
    ensures { result ≡ may_write a s }
{
    match a {
        Action::Check | Action::Status => true,
        Action::Payment => matches!(s, State::Asked),
        Action::Cancel => matches!(s, State::Asked | State::Credited | State::CancelAsked),
    }
}

// The entry that a writing leaves.
#[tactic(auto, unfolding(crate::specs::Asking::written_entry))]
pub fn written_entry(a: Action, e: Entry) -> Entry
    ensures { result ≡ written_entry a e }
{
    match a {
        Action::Check | Action::Payment | Action::Status => e,
        Action::Cancel => Entry {
            state: states::state_number(State::CancelAsked),
            ..e
        },
    }
}

// The request of an entry.
#[tactic(auto, unfolding(crate::specs::Asking::request_of))]
pub fn request_of(a: Action, e: Entry, reason: u64) -> Asked
    ensures { result ≡ request_of a e reason }
{
    let Entry {
        receipt,
        number,
        kind,
        amount,
        date,
        ..
    } = e;
    Asked {
        action: a,
        number,
        kind,
        amount,
        receipt,
        date,
        reason,
    }
}

// Whether a receipt, and a cancel's reason, are well formed.
#[tactic(auto, unfolding(crate::specs::Asking::forms_good))]
pub fn forms_good(a: Action, receipt: u64, reason: u64) -> bool
    ensures { result ≡ forms_good a receipt reason }
{
    match a {
        Action::Check | Action::Payment | Action::Status => codes::is_receipt(receipt),
        Action::Cancel => codes::is_receipt(receipt) && codes::is_reason(reason),
    }
}

// Whether the entry's state and day allow the writing.
#[tactic(auto, unfolding(crate::specs::Asking::is_open))]
pub fn is_open(b: Book, a: Action, e: Entry) -> bool
    ensures { result ≡ is_open b a e }
{
    may_write(a, states::state_of(e.state)) && !frozen::is_frozen(b, e.date)
}

// The request of a check.
#[tactic(auto, unfolding(crate::specs::Asking::check_of))]
pub fn check_of(n: Number, kind: u64, kopecks: u64) -> Asked
    ensures { result ≡ check_of n kind kopecks }
{
    Asked {
        action: Action::Check,
        number: n,
        kind,
        amount: kopecks,
        receipt: 0,
        date: [0u8; 19],
        reason: 0,
    }
}
