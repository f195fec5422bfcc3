// A payment is accepted at the counter.
ghost use Rattle.lists.specs.Rows.{SameLoan};
ghost use Rattle.std.specs.Prelude.{◌≡◌, true, ◌<◌, ◌≤◌, length};
ghost use Rattle.dates.specs.Date.{date_day};
ghost use Rattle.book.specs.Entries.{entries_of};
ghost use Rattle.book.specs.Lent.{entries_in, entries_seen};
ghost use Rattle.book_validity.specs.BookValid.{book_good, ReadyBook, Dated};
ghost use Rattle.acceptance.specs.Acceptance.{acceptance_of, made_entry, may_accept, day_open, has_place, accept_fault, accept};

use book::rows::{Entries, EntriesView};
use book::{Book, Entry, State, rows, states};
use book_validity::{counts, valid};
use dates::date;
use daybook::frozen;
use fields::number::Number;
use fields::{amount, codes};

// The receipt is 0 with a fault. `roosteryore_accept` gives it to C as it is.
#[repr(C)]
#[derive(Clone, Copy)]
pub struct Acceptance {
    pub code: u64,
    pub book: Book,
    pub receipt: u64,
}

// Whether the fields are well formed and the date is not frozen.
#[tactic(auto, unfolding(crate::specs::Acceptance::may_accept))]
pub fn may_accept(b: Book, n: Number, kind: u64, kopecks: u64, written: [u8; 19]) -> bool
    ensures { result ≡ may_accept b n kind kopecks written }
{
    n.is_valid()
        && codes::is_kind(kind)
        && amount::is_amount(kopecks)
        && date::is_written(written)
        && !frozen::is_frozen(b, written)
}

// Whether the day has fewer than its 512 entries.
#[tactic(auto, using(crate::proofs::AcceptLaws::day_open_laws))]
pub fn day_open(entries: EntriesView<'_>, used: usize, written: [u8; 19]) -> bool
    requires used_in_bounds { (used ≤ length entries.nums.now) × (used ≤ length entries.numbers.now) × (used ≤ length entries.dates.now) }
    requires dated { Dated (entries_seen entries) used }
    ensures { result ≡ day_open (entries_of (entries_seen entries.entry) used) (date_day written) }
{
    let Some(day) = date::day_of_date(written) else {
        return false;
    };
    used < counts::DAY_MOST || counts::count_day(entries, used, day) < counts::DAY_MOST
}

// Whether the book, the day and the receipts have a place left.
#[tactic(auto, using(crate::proofs::AcceptLaws::has_place_laws), unfolding(crate::specs::Acceptance::has_place, crate::specs::Acceptance::next_receipt))]
pub fn has_place(entries: EntriesView<'_>, b: Book, written: [u8; 19]) -> bool
    requires { (book_good b (entries_seen entries) ≡ true) × ReadyBook b (entries_seen entries) }
    ensures { result ≡ has_place b (entries_seen entries.entry) written }
{
    b.used < entries.nums.len()
        && day_open(entries, b.used, written)
        && codes::is_receipt(b.first + b.used as u64)
}

// The entry of a payment that is accepted now.
#[tactic(auto, unfolding(crate::specs::Acceptance::made_entry, crate::specs::Acceptance::next_receipt))]
pub fn made_entry(b: Book, n: Number, kind: u64, kopecks: u64, written: [u8; 19]) -> Entry
    requires { (b.first < 1000000000000000) × (b.used ≤ 4096) }
    ensures { result ≡ made_entry b n kind kopecks written }
{
    Entry {
        receipt: b.first + b.used as u64,
        number: n,
        kind,
        amount: kopecks,
        date: written,
        state: states::state_number(State::Asked),
        authcode: 0,
    }
}

// The fault of an acceptance, or 0.
#[tactic(auto, using(crate::proofs::AcceptLaws::accept_fault_laws), unfolding(crate::specs::Acceptance::accept_fault))]
pub fn accept_fault(
    entries: EntriesView<'_>,
    b: Book,
    n: Number,
    kind: u64,
    kopecks: u64,
    written: [u8; 19],
) -> u64
    ensures value { result ≡ accept_fault b (entries_seen entries.entry) n kind kopecks written }
    ensures ready_book { result ≡ 0 → ReadyBook b (entries_seen entries.entry) }
{
    if !valid::book_good(entries, b) {
        return 68;
    }
    if !may_accept(b, n, kind, kopecks, written) {
        return 60;
    }
    if !has_place(entries, b, written) {
        return 61;
    }
    0
}

// Accepts a payment and gives its receipt; a fault keeps all.
#[tactic(auto, using(crate::proofs::AcceptLaws::accept_laws))]
pub fn accept(
    entries: &mut Entries<'_>,
    book: Book,
    number: Number,
    kind: u64,
    kopecks: u64,
    written: [u8; 19],
) -> Acceptance
    ensures value { acceptance_of result (entries_in entries.new) ≡ accept book (entries_in entries.old) number kind kopecks written }
    ensures same_loan { SameLoan entries.old entries.new }
{
    let code = accept_fault(entries.view(), book, number, kind, kopecks, written);
    if code != 0 {
        return Acceptance {
            code,
            book,
            receipt: 0,
        };
    }
    let e = made_entry(book, number, kind, kopecks, written);
    rows::store_entry(entries, book.used, e);
    Acceptance {
        code: 0,
        book: Book {
            used: book.used + 1,
            ..book
        },
        receipt: e.receipt,
    }
}
