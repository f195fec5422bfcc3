// Answers read, step by step: tags, elements, the end.
ghost use Rattle.std.specs.Prelude.{◌≡◌};
ghost use Rattle.answer_reader.specs.AnswerRead.{empty_answer, with_code, SoFar, open_step, parts_step, answer_read};
ghost use Rattle.answer_reader.specs.AnswerParts.{Passes, passed, more_step, parts_of, answer_with, whole_of, undated};

use crate::tags::Step;
use crate::{parts, tags};
use payments::{Action, Answer};

// What the elements give, a date where it stands.
#[derive(Clone, Copy)]
struct Parts<'a> {
    code: u64,
    authcode: Option<u64>,
    date: Option<&'a [u8; 19]>,
}

// What stands behind a tag and the blanks that follow it.
#[tactic(auto, using(crate::proofs::AnswerPartLaws::pass_tag_laws))]
fn pass_tag<'a>(t: &'a [u8], tag: &[u8]) -> Option<&'a [u8]>
    ensures { Passes tag.now t.now result }
{
    let rest = tags::strip(t, tag)?;
    Some(tags::skip_blanks(rest))
}

// What stands behind the XML line and the opening tag of the response.
#[tactic(auto, using(crate::proofs::AnswerPartLaws::open_laws))]
fn open(s: &[u8]) -> Option<&[u8]>
    ensures { passed empty_answer result ≡ open_step s.now }
{
    let t = pass_tag(s, b"<?xml version=\"1.0\" encoding=\"windows-1251\"?>")?;
    pass_tag(t, b"<response>")
}

// Authcode and date, which stand behind the code where the action's answers have them.
#[tactic(auto, using(crate::proofs::AnswerPartLaws::read_more_laws))]
fn read_more(a: Action, code: u64, t: &[u8]) -> Option<Step<'_, Parts<'_>>>
    ensures { parts_of result ≡ more_step a (SoFar (with_code empty_answer code) t.now) }
{
    if !parts::takes_more(a) {
        let value = Parts {
            code,
            authcode: None,
            date: None,
        };
        return Some(Step { value, rest: t });
    }
    let n = parts::read_authcode(t)?;
    let d = parts::read_date(parts::may_lack_date(a, code), n.rest)?;
    let value = Parts {
        code,
        authcode: n.value,
        date: d.value,
    };
    Some(Step {
        value,
        rest: d.rest,
    })
}

// The elements of the response, one after another.
#[tactic(auto, using(crate::proofs::AnswerPartLaws::read_parts_laws))]
fn read_parts(a: Action, t: &[u8]) -> Option<Step<'_, Parts<'_>>>
    ensures { parts_of result ≡ parts_step a (SoFar empty_answer t.now) }
{
    let c = parts::read_code(t)?;
    let p = read_more(a, c.value, c.rest)?;
    let rest = parts::pass_message(p.rest)?;
    Some(Step {
        value: p.value,
        rest,
    })
}

// The elements of a whole response: opened, closed, and nothing behind it.
#[tactic(auto, using(crate::proofs::AnswerPartLaws::whole_parts_laws))]
fn whole_parts(a: Action, s: &[u8]) -> Option<Parts<'_>>
    ensures { whole_of result ≡ answer_read a s.now }
{
    let t = open(s)?;
    let p = read_parts(a, t)?;
    let left = pass_tag(p.rest, b"</response>")?;
    if left.is_empty() { Some(p.value) } else { None }
}

// The answer of the elements, with these bytes as its date.
fn answer_with(p: Parts<'_>, date: [u8; 19]) -> Answer
    ensures { result ≡ answer_with p.entry date }
{
    Answer {
        code: p.code,
        authorized: p.authcode.is_some(),
        authcode: p.authcode.unwrap_or(0),
        dated: p.date.is_some(),
        date,
    }
}

// An answer to an action, from its bytes. Each way out makes an answer of its own, so that no date is copied twice.
pub fn read_answer(a: Action, s: &[u8]) -> Option<Answer>
    ensures { result ≡ answer_read a s.now }
{
    let p = whole_parts(a, s)?;
    match p.date {
        Some(d) => Some(answer_with(p, *d)),
        None => Some(answer_with(p, [0u8; 19])),
    }
}

// The same without the bytes of its date, for those who have no use for them.
pub fn read_undated(a: Action, s: &[u8]) -> Option<Answer>
    ensures { result ≡ undated (answer_read a s.now) }
{
    let p = whole_parts(a, s)?;
    let none = [0u8; 19];
    Some(answer_with(p, none))
}
