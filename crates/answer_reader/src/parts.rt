// The four elements of a response, each under its rule.
ghost use Rattle.std.specs.Prelude.{◌≡◌};
ghost use Rattle.answer_reader.specs.AnswerRead.{takes_more, may_lack_date};
ghost use Rattle.answer_reader.specs.AnswerParts.{ReadsCode, ReadsAuthcode, ReadsDate, ReadsMessage};

use crate::tags;
use crate::tags::Step;
use dates::date;
use payments::Action;
use texts::digits;

// The most bytes of a message.
const MESSAGE_MOST: usize = 512;

#[derive(Clone, Copy)]
pub(crate) enum Part {
    Code,
    Authcode,
    Date,
    Message,
}

// Whether an action's answers may have an authcode and a date.
pub(crate) fn takes_more(a: Action) -> bool
    ensures { result ≡ takes_more a }
{
    match a {
        Action::Check => false,
        Action::Payment | Action::Status | Action::Cancel => true,
    }
}

// Whether an answer with this code may be without a date.
#[tactic(auto, unfolding(crate::specs::AnswerRead::may_lack_date))]
pub(crate) fn may_lack_date(a: Action, code: u64) -> bool
    ensures { result ≡ may_lack_date a code }
{
    match a {
        Action::Payment => matches!(code, 1 | 31),
        Action::Check | Action::Status | Action::Cancel => true,
    }
}

// The code.
#[tactic(auto, using(crate::proofs::AnswerPartLaws::read_code_laws))]
pub(crate) fn read_code(t: &[u8]) -> Option<Step<'_, u64>>
    ensures { ReadsCode t.now result }
{
    let e = tags::element_at(Part::Code, false, t)?;
    let code = digits::read_digits(e.value?, 4)?;
    Some(Step {
        value: code,
        rest: e.rest,
    })
}

// An authcode, where there is one.
#[tactic(auto, using(crate::proofs::AnswerPartLaws::read_authcode_laws))]
pub(crate) fn read_authcode(t: &[u8]) -> Option<Step<'_, Option<u64>>>
    ensures { ReadsAuthcode t.now result }
{
    let e = tags::element_at(Part::Authcode, true, t)?;
    let Some(c) = e.value else {
        return Some(Step {
            value: None,
            rest: e.rest,
        });
    };
    let n = digits::read_digits(c, 15)?;
    Some(Step {
        value: Some(n),
        rest: e.rest,
    })
}

// A date, where there is one: its bytes are judged here, and not copied.
#[tactic(auto, using(crate::proofs::AnswerPartLaws::read_date_laws))]
pub(crate) fn read_date(may_lack: bool, t: &[u8]) -> Option<Step<'_, Option<&[u8; 19]>>>
    ensures { ReadsDate may_lack t.now result }
{
    let e = tags::element_at(Part::Date, may_lack, t)?;
    let Some(c) = e.value else {
        return Some(Step {
            value: None,
            rest: e.rest,
        });
    };
    let d = <&[u8; 19]>::try_from(c).ok()?;
    if date::is_written(*d) {
        Some(Step {
            value: Some(d),
            rest: e.rest,
        })
    } else {
        None
    }
}

// What stands behind a message, where there is one. Nothing is kept of it.
#[tactic(auto, using(crate::proofs::AnswerPartLaws::pass_message_laws))]
pub(crate) fn pass_message(t: &[u8]) -> Option<&[u8]>
    ensures { ReadsMessage t.now result }
{
    let e = tags::element_at(Part::Message, true, t)?;
    match e.value {
        Some(c) if MESSAGE_MOST < c.len() => None,
        _ => Some(e.rest),
    }
}
