#![tactic(auto)]
// The agent writes a request.
ghost use Rattle.lists.specs.Rows.{SameLoan};
ghost use Rattle.std.specs.Prelude.{◌≡◌, ◌<◌};
ghost use Rattle.payments.specs.declared.Action.TheVariants.{Payment, Status, Cancel};
ghost use Rattle.book_validity.specs.BookValid.{ReadyBook};
ghost use Rattle.writing.specs.Writing.{writing_of, write_at, write_request, write_check};
ghost use Rattle.book.specs.Lent.{entries_in, entries_seen};

use book::rows::{Entries, EntriesView};
use book::{Book, rows};
use book_validity::{find, valid};
use daybook::Writing;
use fields::number::Number;
use payments::Action;
use request_writer::write;

// How many bytes a request's buffer has at least.
const REQUEST_ROOM: usize = 512;

// Writes the request of the entry at i.
#[tactic(auto, using(crate::proofs::WritingLaws::write_entry_laws))]
pub(crate) fn write_entry(
    entries: &mut Entries<'_>,
    b: Book,
    i: usize,
    a: Action,
    reason: u64,
    out: &mut [u8],
) -> Writing
    requires { ReadyBook b (entries_in entries.old) × (i < b.used) }
    ensures value { writing_of result (entries_in entries.new) out.new ≡ write_at b (entries_in entries.old) a reason out.old (Some i) }
    ensures same_loan { SameLoan entries.old entries.new }
{
    let e = rows::load_entry(entries.view(), i);
    if !asking::is_open(b, a, e) {
        return Writing { code: 63, size: 0 };
    }
    let size = write::write_request(asking::request_of(a, e, reason), out, 0);
    rows::store_entry(entries, i, asking::written_entry(a, e));
    Writing { code: 0, size }
}

// A request of an entry, by its receipt. A fault is a number and no bytes: `roosteryore_write_payment` and the like give both to C.
#[tactic(auto, using(crate::proofs::WritingLaws::write_for_laws))]
pub(crate) fn write_for(
    entries: &mut Entries<'_>,
    b: Book,
    a: Action,
    receipt: u64,
    reason: u64,
    out: &mut [u8],
) -> Writing
    ensures value { writing_of result (entries_in entries.new) out.new ≡ write_request b (entries_in entries.old) a receipt reason out.old }
    ensures same_loan { SameLoan entries.old entries.new }
{
    if !valid::book_good(entries.view(), b) {
        return Writing { code: 68, size: 0 };
    }
    if out.len() < REQUEST_ROOM {
        return Writing { code: 50, size: 0 };
    }
    if !asking::forms_good(a, receipt, reason) {
        return Writing { code: 60, size: 0 };
    }
    let Some(i) = find::find_entry(entries.view(), b, receipt) else {
        return Writing { code: 62, size: 0 };
    };
    write_entry(entries, b, i, a, reason, out)
}

// Writes the payment of a receipt.
pub fn write_payment(entries: &mut Entries<'_>, book: Book, receipt: u64, out: &mut [u8]) -> Writing
    ensures value { writing_of result (entries_in entries.new) out.new ≡ write_request book (entries_in entries.old) Payment receipt 0 out.old }
    ensures same_loan { SameLoan entries.old entries.new }
{
    write_for(entries, book, Action::Payment, receipt, 0, out)
}

// Writes the status of a receipt.
pub fn write_status(entries: &mut Entries<'_>, book: Book, receipt: u64, out: &mut [u8]) -> Writing
    ensures value { writing_of result (entries_in entries.new) out.new ≡ write_request book (entries_in entries.old) Status receipt 0 out.old }
    ensures same_loan { SameLoan entries.old entries.new }
{
    write_for(entries, book, Action::Status, receipt, 0, out)
}

// Writes the cancel of a receipt, for a reason; its entry is cancel-asked from then on.
pub fn write_cancel(
    entries: &mut Entries<'_>,
    book: Book,
    receipt: u64,
    reason: u64,
    out: &mut [u8],
) -> Writing
    ensures value { writing_of result (entries_in entries.new) out.new ≡ write_request book (entries_in entries.old) Cancel receipt reason out.old }
    ensures same_loan { SameLoan entries.old entries.new }
{
    write_for(entries, book, Action::Cancel, receipt, reason, out)
}

// Writes a check of an account and an amount.
#[tactic(auto, using(crate::proofs::WritingLaws::write_check_laws))]
pub fn write_check(
    entries: EntriesView<'_>,
    book: Book,
    number: Number,
    kind: u64,
    kopecks: u64,
    out: &mut [u8],
) -> Writing
    ensures { writing_of result (entries_seen entries.entry) out.new ≡ write_check book (entries_seen entries.entry) number kind kopecks out.old }
{
    if !valid::book_good(entries, book) {
        return Writing { code: 68, size: 0 };
    }
    if out.len() < REQUEST_ROOM {
        return Writing { code: 50, size: 0 };
    }
    let q = asking::check_of(number, kind, kopecks);
    if !write::is_asked(q) {
        return Writing { code: 60, size: 0 };
    }
    let size = write::write_request(q, out, 0);
    Writing { code: 0, size }
}
