// The actions of a request, and the fields that each has.
ghost use Rattle.std.specs.Prelude.{◌≡◌};
ghost use Rattle.parameters.specs.Names.{name_index, action_of, has_account, has_receipt, has_date, has_reason};

use payments::Action;

// The places of the seven names.
pub const ACTION: usize = 0;

pub const NUMBER: usize = 1;

pub const KIND: usize = 2;

pub const AMOUNT: usize = 3;

pub const RECEIPT: usize = 4;

pub const DATE: usize = 5;

pub const REASON: usize = 6;

// A known name's place among the seven.
#[tactic(auto, using(crate::proofs::WordLaws::name_laws))]
pub(crate) fn name_index(name: &[u8]) -> Option<usize>
    ensures { result ≡ name_index name.now }
{
    match name {
        b"action" => Some(ACTION),
        b"number" => Some(NUMBER),
        b"type" => Some(KIND),
        b"amount" => Some(AMOUNT),
        b"receipt" => Some(RECEIPT),
        b"date" => Some(DATE),
        b"mes" => Some(REASON),
        _ => None,
    }
}

// The action that a word names.
#[tactic(auto, using(crate::proofs::WordLaws::action_laws))]
pub fn read_action(word: &[u8]) -> Option<Action>
    ensures { result ≡ action_of word.now }
{
    match word {
        b"check" => Some(Action::Check),
        b"payment" => Some(Action::Payment),
        b"status" => Some(Action::Status),
        b"cancel" => Some(Action::Cancel),
        _ => None,
    }
}

// Whether an action has number, type and amount.
pub fn has_account(a: Action) -> bool
    ensures { result ≡ has_account a }
{
    matches!(a, Action::Check | Action::Payment)
}

// Whether an action has a receipt.
pub fn has_receipt(a: Action) -> bool
    ensures { result ≡ has_receipt a }
{
    a != Action::Check
}

// Whether an action has a date.
pub fn has_date(a: Action) -> bool
    ensures { result ≡ has_date a }
{
    a == Action::Payment
}

// Whether an action has a reason.
pub fn has_reason(a: Action) -> bool
    ensures { result ≡ has_reason a }
{
    a == Action::Cancel
}
