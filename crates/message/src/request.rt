// Requests: what they ask, or why they are refused.
ghost use Rattle.std.specs.Prelude.{◌≡◌, Some, length, get_or, is_some, None, true};
ghost use Rattle.payments.specs.declared.Action.TheVariants.{Check};
ghost use Rattle.parameters.specs.Names.{action_of};
ghost use Rattle.parameters.specs.Slots.{Absent};
ghost use Rattle.parameters.specs.SlotWalk.{slots_in};
ghost use Rattle.message.specs.Request.{held, fault_code, nothing_asked, receipt_field, number_field, kind_field, amount_field, date_field, reason_field, refused, fields_read, request_read};
ghost use Rattle.message.specs.RequestWalk.{figures_of};

use dates::date;
use fields::number::Number;
use fields::{amount, codes, number};
use parameters::{action, slots};
use payments::Action;

// How many bytes the parameters of a request are at most.
const PARAMETERS_MOST: usize = 2048;

// The fields of a request; those that its action lacks are at fixed values, zeros. Small ones last, so that the others are copied whole words at a time.
#[derive(Clone, Copy)]
pub struct Asked {
    pub number: Number,
    pub kind: u64,
    pub amount: u64,
    pub receipt: u64,
    pub reason: u64,
    pub date: [u8; 19],
    pub action: Action,
}

// The first fault of a request, with its number.
#[derive(Clone, Copy, PartialEq, Eq)]
pub enum Fault {
    NoAction = 1,
    Account = 2,
    Amount = 3,
    Receipt = 4,
    Date = 5,
    Malformed = 31,
    Reason = 32,
}

// Why a request is refused. With Malformed and NoAction no action is known, and Check stands there.
#[derive(Clone, Copy, PartialEq, Eq)]
pub struct Refusal {
    pub fault: Fault,
    pub action: Action,
}

// The fields that are figures.
#[derive(Clone, Copy)]
struct Figures {
    receipt: u64,
    kind: u64,
    amount: u64,
    reason: u64,
}

impl From<Fault> for u64 {
    ghost from_gives = { λ fault n. n ≡ fault_code fault };

    fn from(fault: Fault) -> u64 {
        fault as u64
    }
}

impl Asked {
    // What stands for a request that is refused: nothing is asked, but for its action.
    #[tactic(auto, unfolding(crate::specs::Request::nothing_asked))]
    pub fn nothing(action: Action) -> Asked
        ensures { result ≡ nothing_asked action }
    {
        Asked {
            number: Number {
                bytes: [0; 30],
                len: 0,
            },
            kind: 0,
            amount: 0,
            receipt: 0,
            reason: 0,
            date: [0; 19],
            action,
        }
    }
}

// The action of a request.
fn action_field(s: &[u8], t: &[[usize; 2]]) -> Option<Action>
    requires { 7 ≡ length t.now }
    ensures { result ≡ held None action_of (get_or (slots_in s.now t.now) 0 Absent) }
{
    let mut room = [0u8; 96];
    action::read_action(slots::text_of(s, t, action::ACTION, &mut room))
}

// The receipt: 0 where the action lacks it, malformed where the request does. So are amount and reason.
#[tactic(auto, using(crate::proofs::FieldLaws::receipt_laws))]
fn receipt_field(a: Action, s: &[u8], t: &[[usize; 2]]) -> Option<u64>
    requires { 7 ≡ length t.now }
    ensures { result ≡ receipt_field a (slots_in s.now t.now) }
{
    if !action::has_receipt(a) {
        return Some(0);
    }
    let mut room = [0u8; 96];
    codes::read_receipt(slots::text_of(s, t, action::RECEIPT, &mut room))
}

// The type; an absent one is 1.
#[tactic(auto, using(crate::proofs::FieldLaws::kind_laws))]
fn kind_field(a: Action, s: &[u8], t: &[[usize; 2]]) -> Option<u64>
    requires { 7 ≡ length t.now }
    ensures { result ≡ kind_field a (slots_in s.now t.now) }
{
    if !action::has_account(a) {
        return Some(0);
    }
    if !slots::is_given(t, action::KIND) {
        return Some(1);
    }
    let mut room = [0u8; 96];
    codes::read_kind(slots::text_of(s, t, action::KIND, &mut room))
}

#[tactic(auto, using(crate::proofs::FieldLaws::amount_laws))]
fn amount_field(a: Action, s: &[u8], t: &[[usize; 2]]) -> Option<u64>
    requires { 7 ≡ length t.now }
    ensures { result ≡ amount_field a (slots_in s.now t.now) }
{
    if !action::has_account(a) {
        return Some(0);
    }
    let mut room = [0u8; 96];
    amount::read_amount(slots::text_of(s, t, action::AMOUNT, &mut room))
}

#[tactic(auto, using(crate::proofs::FieldLaws::reason_laws))]
fn reason_field(a: Action, s: &[u8], t: &[[usize; 2]]) -> Option<u64>
    requires { 7 ≡ length t.now }
    ensures { result ≡ reason_field a (slots_in s.now t.now) }
{
    if !action::has_reason(a) {
        return Some(0);
    }
    let mut room = [0u8; 96];
    codes::read_reason(slots::text_of(s, t, action::REASON, &mut room))
}

// Whether the number can be read, where the action has one.
#[tactic(auto, using(crate::proofs::FieldLaws::number_laws))]
fn number_good(a: Action, s: &[u8], t: &[[usize; 2]]) -> bool
    requires { 7 ≡ length t.now }
    ensures { result ≡ is_some (number_field a (slots_in s.now t.now)) }
{
    if !action::has_account(a) {
        return true;
    }
    let mut room = [0u8; 96];
    number::is_text(slots::text_of(s, t, action::NUMBER, &mut room))
}

// Whether the date can be read, where the action has one.
#[tactic(auto, using(crate::proofs::FieldLaws::date_laws))]
fn date_good(a: Action, s: &[u8], t: &[[usize; 2]]) -> bool
    requires { 7 ≡ length t.now }
    ensures { result ≡ is_some (date_field a (slots_in s.now t.now)) }
{
    if !action::has_date(a) {
        return true;
    }
    let mut room = [0u8; 96];
    date::is_text(slots::text_of(s, t, action::DATE, &mut room))
}

// The number, once it is known that it can be read; no bytes where the action lacks it.
#[tactic(auto, using(crate::proofs::FieldLaws::number_laws))]
fn number_field(a: Action, s: &[u8], t: &[[usize; 2]]) -> Number
    requires { (7 ≡ length t.now) × (is_some (number_field a (slots_in s.now t.now)) ≡ true) }
    ensures { number_field a (slots_in s.now t.now) ≡ Some result }
{
    if !action::has_account(a) {
        return Number {
            bytes: [0; 30],
            len: 0,
        };
    }
    let mut room = [0u8; 96];
    number::number_of(slots::text_of(s, t, action::NUMBER, &mut room))
}

// The date, once it is known that it can be read; zeros where the action lacks it.
#[tactic(auto, using(crate::proofs::FieldLaws::date_laws))]
fn date_field(a: Action, s: &[u8], t: &[[usize; 2]]) -> [u8; 19]
    requires { (7 ≡ length t.now) × (is_some (date_field a (slots_in s.now t.now)) ≡ true) }
    ensures { date_field a (slots_in s.now t.now) ≡ Some result }
{
    if !action::has_date(a) {
        return [0; 19];
    }
    let mut room = [0u8; 96];
    date::nineteen(slots::text_of(s, t, action::DATE, &mut room))
}

// The figures of an action, or the first fault of its fields.
#[tactic(auto, using(crate::proofs::RequestLaws::figures_laws))]
fn read_figures(a: Action, s: &[u8], t: &[[usize; 2]]) -> Result<Figures, Fault>
    requires { 7 ≡ length t.now }
    ensures { result ≡ figures_of a (slots_in s.now t.now) }
{
    let receipt = receipt_field(a, s, t).ok_or(Fault::Receipt)?;
    if !number_good(a, s, t) {
        return Err(Fault::Account);
    }
    let kind = kind_field(a, s, t).ok_or(Fault::Account)?;
    let amount = amount_field(a, s, t).ok_or(Fault::Amount)?;
    if !date_good(a, s, t) {
        return Err(Fault::Date);
    }
    let reason = reason_field(a, s, t).ok_or(Fault::Reason)?;
    Ok(Figures {
        receipt,
        kind,
        amount,
        reason,
    })
}

// What an action asks, or the first fault of its fields. Number and date are judged first and copied once, into what is handed back.
#[tactic(auto, using(crate::proofs::RequestLaws::fields_laws))]
fn read_fields(a: Action, s: &[u8], t: &[[usize; 2]]) -> Result<Asked, Refusal>
    requires { 7 ≡ length t.now }
    ensures { result ≡ fields_read a (slots_in s.now t.now) }
{
    let f = match read_figures(a, s, t) {
        Ok(f) => f,
        Err(fault) => return Err(Refusal { fault, action: a }),
    };
    Ok(Asked {
        number: number_field(a, s, t),
        kind: f.kind,
        amount: f.amount,
        receipt: f.receipt,
        reason: f.reason,
        date: date_field(a, s, t),
        action: a,
    })
}

// A refusal of a request whose action is not known.
fn refuse(fault: Fault) -> Result<Asked, Refusal>
    ensures { result ≡ refused fault Check }
{
    Err(Refusal {
        fault,
        action: Action::Check,
    })
}

// What a request asks, or why it is refused; at most 2,048 bytes are looked at.
#[tactic(auto, using(crate::proofs::RequestLaws::request_laws))]
pub fn read_request(s: &[u8]) -> Result<Asked, Refusal>
    ensures { result ≡ request_read s.now }
{
    if PARAMETERS_MOST < s.len() {
        return refuse(Fault::Malformed);
    }
    let mut t = [[0usize; 2]; 7];
    if !slots::gather(s, &mut t) {
        return refuse(Fault::Malformed);
    }
    let Some(a) = action_field(s, &t) else {
        return refuse(Fault::NoAction);
    };
    read_fields(a, s, &t)
}
