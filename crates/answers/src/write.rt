// Answers written: piece by piece into a local text, and that at once into the lent buffer.
ghost use Rattle.std.specs.Prelude.{◌≡◌, true, false, MatchOption};
ghost use Rattle.texts.specs.Digits.{decimal};
ghost use Rattle.texts.specs.Lists.{written, cursor_after};
ghost use Rattle.answers.specs.Answer.{has_message, message_of, answer_bytes};
ghost use Rattle.answers.specs.AnswerText.{Grown, enclosed, code_text, start_text, date_text, message_text, end_text};

use payments::Answer;
use texts::{digits, out, scan};

// Adds src behind the text that ends at the cursor, as far as it has room.
#[tactic(auto, using(crate::proofs::AnswerTextLaws::add_bytes_laws))]
fn add_bytes(src: &[u8], dst: &mut [u8], at: usize) -> usize
    ensures { Grown dst.old at src.now result dst.new }
{
    if dst.len() < at {
        return at;
    }
    out::put_bytes(scan::first_bytes(src, dst.len() - at), dst, at)
}

// Adds an element, where it is used.
#[tactic(auto, using(crate::proofs::AnswerTextLaws::add_element_laws))]
fn add_element(
    used: bool,
    opener: &[u8],
    content: &[u8],
    closer: &[u8],
    dst: &mut [u8],
    at: usize,
) -> usize
    ensures { Grown dst.old at (enclosed used opener.now content.now closer.now) result dst.new }
{
    if used {
        let a = add_bytes(opener, dst, at);
        let b = add_bytes(content, dst, a);
        add_bytes(closer, dst, b)
    } else {
        at
    }
}

// Adds a number's element, where it is used.
#[tactic(auto, using(crate::proofs::AnswerTextLaws::add_number_laws))]
fn add_number(used: bool, opener: &[u8], n: u64, closer: &[u8], dst: &mut [u8], at: usize) -> usize
    ensures { Grown dst.old at (enclosed used opener.now (decimal n) closer.now) result dst.new }
{
    let mut a = [0u8; 20];
    let k = digits::write_digits(n, &mut a, 0);
    add_element(used, opener, scan::first_bytes(&a, k), closer, dst, at)
}

// The words of a code's message, where it has one.
#[tactic(auto, unfolding(crate::specs::Answer::message_of))]
fn message_of(code: u64) -> Option<&'static [u8]>
    ensures { MatchOption result (has_message code ≡ false) (λ m. (has_message code ≡ true) × (m.now ≡ message_of code)) }
{
    match code {
        30 => Some(b"table full"),
        31 => Some(b"bad request"),
        32 => Some(b"bad reason"),
        _ => None,
    }
}

// Adds a code's message, where it has one.
#[tactic(auto, using(crate::proofs::AnswerTextLaws::message_told, crate::proofs::AnswerTextLaws::message_none))]
fn add_message(code: u64, dst: &mut [u8], at: usize) -> usize
    ensures { Grown dst.old at (message_text code) result dst.new }
{
    match message_of(code) {
        Some(words) => add_element(true, b"<message>", words, b"</message>", dst, at),
        None => at,
    }
}

// Adds a date, where it is used.
#[tactic(auto, unfolding(crate::specs::AnswerText::date_text, crate::specs::Answer::element))]
fn add_date(used: bool, date: &[u8], dst: &mut [u8], at: usize) -> usize
    ensures { Grown dst.old at (date_text used date.now) result dst.new }
{
    add_element(used, b"<date>", date, b"</date>", dst, at)
}

// Adds the start of an answer, to its code.
#[tactic(auto, using(crate::proofs::AnswerTextLaws::add_code_laws))]
fn add_code(code: u64, dst: &mut [u8], at: usize) -> usize
    ensures { Grown dst.old at (code_text code) result dst.new }
{
    let a = add_bytes(
        b"<?xml version=\"1.0\" encoding=\"windows-1251\"?><response>",
        dst,
        at,
    );
    add_number(true, b"<code>", code, b"</code>", dst, a)
}

// Adds the start of an answer, to its authcode.
#[tactic(auto, using(crate::proofs::AnswerTextLaws::add_start_laws), unfolding(crate::specs::AnswerText::start_text, crate::specs::Answer::element))]
fn add_start(code: u64, authorized: bool, authcode: u64, dst: &mut [u8], at: usize) -> usize
    ensures { Grown dst.old at (start_text code authorized authcode) result dst.new }
{
    let a = add_code(code, dst, at);
    add_number(authorized, b"<authcode>", authcode, b"</authcode>", dst, a)
}

// Adds the end of an answer, behind its date.
#[tactic(auto, using(crate::proofs::AnswerTextLaws::add_end_laws), unfolding(crate::specs::AnswerText::end_text))]
fn add_end(code: u64, dst: &mut [u8], at: usize) -> usize
    ensures { Grown dst.old at (end_text code) result dst.new }
{
    let a = add_message(code, dst, at);
    add_bytes(b"</response>", dst, a)
}

// Adds an answer.
#[tactic(auto, using(crate::proofs::AnswerTextLaws::add_answer_laws))]
fn add_answer(x: Answer, dst: &mut [u8], at: usize) -> usize
    ensures { Grown dst.old at (answer_bytes x) result dst.new }
{
    let a = add_start(x.code, x.authorized, x.authcode, dst, at);
    let b = add_date(x.dated, &x.date, dst, a);
    add_end(x.code, dst, b)
}

// Writes an answer at the cursor, where it has room.
pub fn write_answer(x: Answer, dst: &mut [u8], at: usize) -> usize
    ensures { (result ≡ cursor_after dst.old at (answer_bytes x)) × (dst.new ≡ written dst.old at (answer_bytes x)) }
{
    let mut text = [0u8; 256];
    let n = add_answer(x, &mut text, 0);
    out::put_bytes(scan::first_bytes(&text, n), dst, at)
}
