// What an answer says of a payment, and the state that it leaves.
ghost use Rattle.std.specs.Prelude.{◌≡◌};
ghost use Rattle.answering.specs.Answering.{meaning, turned, credits, payment_meaning, cancel_meaning};

use book::State;
use payments::Action;

#[derive(Clone, Copy)]
pub enum Meaning {
    Paid,
    Revoked,
    Silent,
}

// A payment's or a status' answer.
#[tactic(auto, unfolding(crate::specs::Answering::payment_meaning))]
pub(crate) fn payment_meaning(code: u64) -> Meaning
    ensures { result ≡ payment_meaning code }
{
    match code {
        0 => Meaning::Paid,
        7 => Meaning::Revoked,
        _ => Meaning::Silent,
    }
}

// A cancel's answer.
#[tactic(auto, unfolding(crate::specs::Answering::cancel_meaning))]
pub(crate) fn cancel_meaning(code: u64) -> Meaning
    ensures { result ≡ cancel_meaning code }
{
    match code {
        0 | 7 => Meaning::Revoked,
        _ => Meaning::Silent,
    }
}

// What an answer to the action says.
#[tactic(auto, unfolding(crate::specs::Answering::meaning))]
pub(crate) fn meaning_of(a: Action, code: u64) -> Meaning
    ensures { result ≡ meaning a code }
{
    match a {
        Action::Check => Meaning::Silent,
        Action::Payment | Action::Status => payment_meaning(code),
        Action::Cancel => cancel_meaning(code),
    }
}

// The state that it leaves.
#[tactic(auto, unfolding(crate::specs::Answering::turned))]
pub(crate) fn turn(m: Meaning, s: State) -> State
    ensures { result ≡ turned m s }
{
    match (m, s) {
        (Meaning::Paid, State::Asked) => State::Credited,
        (Meaning::Revoked, State::Asked | State::CancelAsked) => State::Cancelled,
        _ => s,
    }
}

// Whether it turns asked to credited.
#[tactic(auto, unfolding(crate::specs::Answering::credits))]
pub(crate) fn is_credit(m: Meaning, s: State) -> bool
    ensures { result ≡ credits m s }
{
    matches!((m, s), (Meaning::Paid, State::Asked))
}
