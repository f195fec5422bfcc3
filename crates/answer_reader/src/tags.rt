// Tags, blanks and elements at the start of what is left of an answer.
ghost use Rattle.std.specs.Prelude.{◌≡◌};
ghost use Rattle.answers.specs.Answer.{opening, closing};
ghost use Rattle.answer_reader.specs.AnswerRead.{is_blank, skip_blanks, element_at, name_of};
ghost use Rattle.answer_reader.specs.AnswerParts.{Strips, Finds};

use crate::parts::Part;
use texts::scan;

// What was read, and what is left of the text.
#[derive(Clone, Copy)]
pub(crate) struct Step<'a, T> {
    pub value: T,
    pub rest: &'a [u8],
}

// Whether a byte is a space, a tab, CR or LF.
#[tactic(auto, unfolding(crate::specs::AnswerRead::is_blank))]
fn is_blank(b: u8) -> bool
    ensures { result ≡ is_blank b }
{
    matches!(b, b' ' | b'\t' | b'\r' | b'\n')
}

// A text without the blanks at its start.
#[tactic(auto, using(crate::proofs::AnswerTagLaws::skip_blanks_laws))]
pub(crate) fn skip_blanks(t: &[u8]) -> &[u8]
    ensures { result.now ≡ skip_blanks t.now }
{
    for (i, b) in t.iter().enumerate() {
        if !is_blank(*b) {
            return &t[i..];
        }
    }
    &[]
}

// A text without a tag that must stand at its start.
#[tactic(auto, using(crate::proofs::AnswerTagLaws::strip_laws))]
pub(crate) fn strip<'a>(t: &'a [u8], tag: &[u8]) -> Option<&'a [u8]>
    ensures { Strips tag.now t.now result }
{
    let (head, rest) = t.split_at_checked(tag.len())?;
    if scan::same_bytes(head, tag) {
        Some(rest)
    } else {
        None
    }
}

// The same of an element's opening tag. The tags are written out, so that the compiler knows their bytes.
fn strip_opener<'a>(k: Part, t: &'a [u8]) -> Option<&'a [u8]>
    ensures { Strips (opening (name_of k)) t.now result }
{
    match k {
        Part::Code => strip(t, b"<code>"),
        Part::Authcode => strip(t, b"<authcode>"),
        Part::Date => strip(t, b"<date>"),
        Part::Message => strip(t, b"<message>"),
    }
}

// And of its closing tag.
fn strip_closer<'a>(k: Part, t: &'a [u8]) -> Option<&'a [u8]>
    ensures { Strips (closing (name_of k)) t.now result }
{
    match k {
        Part::Code => strip(t, b"</code>"),
        Part::Authcode => strip(t, b"</authcode>"),
        Part::Date => strip(t, b"</date>"),
        Part::Message => strip(t, b"</message>"),
    }
}

// The content of an element, if it is there; `may_lack` tells whether it may be missing.
#[tactic(auto, using(crate::proofs::AnswerTagLaws::element_at_laws))]
pub(crate) fn element_at<'a>(
    k: Part,
    may_lack: bool,
    t: &'a [u8],
) -> Option<Step<'a, Option<&'a [u8]>>>
    ensures { Finds may_lack t.now (element_at (name_of k) t.now) result }
{
    let Some(inside) = strip_opener(k, t) else {
        return if may_lack {
            Some(Step {
                value: None,
                rest: t,
            })
        } else {
            None
        };
    };
    let size = scan::find_byte(inside, b'<');
    let behind = strip_closer(k, scan::bytes_from(inside, size))?;
    Some(Step {
        value: Some(scan::first_bytes(inside, size)),
        rest: skip_blanks(behind),
    })
}
