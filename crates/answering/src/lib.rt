#![tactic(auto)]
// An answer comes back, with the action and the receipt of its request.
pub mod meaning;

ghost use Rattle.lists.specs.Rows.{SameLoan};
ghost use Rattle.std.specs.Prelude.{◌≡◌, true, ◌<◌};
ghost use Rattle.book_validity.specs.BookValid.{book_good, ReadyBook};
ghost use Rattle.answering.specs.Answering.{taking_of, authcode_after, answered_entry, take_at_place, take_receipt, is_check, check_code, take_answer};
ghost use Rattle.book.specs.Lent.{entries_in};

use answer_reader::read;
use book::rows::Entries;
use book::{Book, Entry, rows, states};
use book_validity::{find, valid};
use daybook::frozen;
use fields::codes;
use payments::{Action, Answer};

// The authcode of an entry after an answer.
#[tactic(auto, unfolding(crate::specs::Answering::authcode_after))]
pub(crate) fn authcode_after(credited: bool, x: Answer, e: Entry) -> u64
    ensures { result ≡ authcode_after credited x e }
{
    if credited && x.authorized {
        x.authcode
    } else {
        e.authcode
    }
}

// The entry that an answer leaves.
#[tactic(auto, using(crate::proofs::AnsweringLaws::answered_entry_laws))]
pub(crate) fn answered_entry(m: meaning::Meaning, x: Answer, e: Entry) -> Entry
    ensures { result ≡ answered_entry m x e }
{
    let s = states::state_of(e.state);
    Entry {
        state: states::state_number(meaning::turn(m, s)),
        authcode: authcode_after(meaning::is_credit(m, s), x, e),
        ..e
    }
}

// An answer for the entry at i.
#[tactic(auto, using(crate::proofs::AnsweringLaws::take_at_laws))]
pub(crate) fn take_at(entries: &mut Entries<'_>, b: Book, i: usize, a: Action, text: &[u8]) -> u64
    requires { ReadyBook b (entries_in entries.old) × (i < b.used) }
    ensures value { taking_of result (entries_in entries.new) ≡ take_at_place b (entries_in entries.old) a text.now (Some i) }
    ensures same_loan { SameLoan entries.old entries.new }
{
    let Some(answer) = read::read_undated(a, text) else {
        return 64;
    };
    let e = rows::load_entry(entries.view(), i);
    if frozen::is_frozen(b, e.date) {
        return 0;
    }
    let m = meaning::meaning_of(a, answer.code);
    rows::store_entry(entries, i, answered_entry(m, answer, e));
    0
}

// An answer with a receipt.
#[tactic(auto, using(crate::proofs::AnsweringLaws::take_receipt_laws))]
pub(crate) fn take_receipt(
    entries: &mut Entries<'_>,
    b: Book,
    a: Action,
    receipt: u64,
    text: &[u8],
) -> u64
    requires { (book_good b (entries_in entries.old) ≡ true) × ReadyBook b (entries_in entries.old) }
    ensures value { taking_of result (entries_in entries.new) ≡ take_receipt b (entries_in entries.old) a receipt text.now }
    ensures same_loan { SameLoan entries.old entries.new }
{
    if !codes::is_receipt(receipt) {
        return 60;
    }
    let found = find::find_entry(entries.view(), b, receipt);
    match found {
        None => 62,
        Some(i) => take_at(entries, b, i, a, text),
    }
}

pub(crate) fn is_check(a: Action) -> bool
    ensures { result ≡ is_check a }
{
    matches!(a, Action::Check)
}

// A check's answer moves nothing.
#[tactic(auto, using(crate::proofs::AnsweringLaws::take_check_laws))]
pub(crate) fn take_check(text: &[u8]) -> u64
    ensures { result ≡ check_code text.now }
{
    match read::read_undated(Action::Check, text) {
        Some(_) => 0,
        None => 64,
    }
}

// Takes the answer to a request of this action and receipt; a fault keeps all. The number is what `roosteryore_take_payment_answer` and the like give to C.
#[tactic(auto, using(crate::proofs::AnsweringLaws::take_answer_laws))]
pub fn take_answer(
    entries: &mut Entries<'_>,
    book: Book,
    action: Action,
    receipt: u64,
    text: &[u8],
) -> u64
    ensures value { taking_of result (entries_in entries.new) ≡ take_answer book (entries_in entries.old) action receipt text.now }
    ensures same_loan { SameLoan entries.old entries.new }
{
    if !valid::book_good(entries.view(), book) {
        return 68;
    }
    if is_check(action) {
        return take_check(text);
    }
    take_receipt(entries, book, action, receipt, text)
}
