// The answer that a decision gives.
ghost use Rattle.std.specs.Prelude.{◌≡◌};
ghost use Rattle.rules.specs.Answering.{settles, is_cancel, answers_authcode, answers_date, answer_date, answer_of};

use payments::{Action, Answer};
use table::Record;

// 0 and 7 speak of a record.
fn is_settled(code: u64) -> bool
    ensures { result ≡ settles code }
{
    matches!(code, 0 | 7)
}

// Whether an action is a cancel.
#[tactic(auto, unfolding(crate::specs::Answering::is_cancel))]
pub fn is_cancel(a: Action) -> bool
    ensures { result ≡ is_cancel a }
{
    matches!(a, Action::Cancel)
}

// Whether the answer has an authcode.
#[tactic(auto, unfolding(crate::specs::Answering::answers_authcode))]
fn answers_authcode(a: Action, code: u64) -> bool
    ensures { result ≡ answers_authcode a code }
{
    match a {
        Action::Check => false,
        Action::Payment | Action::Status | Action::Cancel => is_settled(code),
    }
}

// Whether the answer has a date.
#[tactic(auto, unfolding(crate::specs::Answering::answers_date))]
fn answers_date(a: Action, code: u64) -> bool
    ensures { result ≡ answers_date a code }
{
    match a {
        Action::Check => false,
        Action::Payment => true,
        Action::Status | Action::Cancel => is_settled(code),
    }
}

// The date of an answer: the record's cancel or credit date, or the clock.
#[tactic(auto, unfolding(crate::specs::Answering::answer_date))]
fn answer_date(a: Action, code: u64, r: Record, clock: [u8; 19]) -> [u8; 19]
    ensures { result ≡ answer_date a code r clock }
{
    match code {
        0 if !is_cancel(a) => r.credit,
        0 | 7 => r.cancel,
        _ => clock,
    }
}

// The answer to an action with this code, about a record.
#[tactic(auto, unfolding(crate::specs::Answering::answer_of))]
pub fn answer_of(a: Action, code: u64, r: Record, clock: [u8; 19]) -> Answer
    ensures { result ≡ answer_of a code r clock }
{
    let authorized = answers_authcode(a, code);
    let dated = answers_date(a, code);
    let authcode = if authorized { r.authcode } else { 0 };
    let date = if dated {
        answer_date(a, code, r, clock)
    } else {
        [0; 19]
    };
    Answer {
        code,
        authorized,
        authcode,
        dated,
        date,
    }
}
