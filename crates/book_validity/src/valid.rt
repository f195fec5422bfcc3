// Row 68 of the agent: whether a lent book is in its ranges.
ghost use Rattle.std.specs.Prelude.{true, ◌≡◌, ◌<◌, ◌≤◌, length};
ghost use Rattle.fields.specs.Codes.{is_receipt};
ghost use Rattle.lists.specs.Lists.{all_from};
ghost use Rattle.book.specs.Entries.{entries_of, WholeBook};
ghost use Rattle.book.specs.Lent.{entries_seen};
ghost use Rattle.book_validity.specs.BookValid.{entry_fields, entry_good, book_head, book_good, ReadyBook};

use crate::counts;
use book::rows::EntriesView;
use book::{Book, Entry, rows};
use dates::date;
use fields::{amount, codes};
use texts::digits;

// The largest authcode: 15 digits.
const AUTHCODE_MOST: u64 = 999999999999999;

// Whether the fields of an entry are in their ranges.
#[tactic(auto, unfolding(crate::specs::BookValid::entry_fields))]
fn entry_fields(e: Entry) -> bool
    ensures { result ≡ entry_fields e }
{
    codes::is_receipt(e.receipt)
        && e.number.is_valid()
        && codes::is_kind(e.kind)
        && amount::is_amount(e.amount)
        && date::is_written(e.date)
        && digits::is_within(1, 5, e.state)
        && digits::is_within(0, AUTHCODE_MOST, e.authcode)
}

// Whether the entry at i has the receipt of its place, and its fields are in their ranges.
#[tactic(auto, using(crate::proofs::ValidLaws::turn_laws), unfolding(crate::specs::BookValid::entry_good, crate::specs::BookValid::in_turn))]
fn entry_good(b: Book, i: usize, e: Entry) -> bool
    requires { (is_receipt b.first ≡ true) × (i < 4096) }
    ensures { result ≡ entry_good b i e }
{
    e.receipt == b.first + i as u64 && entry_fields(e)
}

// Whether each entry in use is good.
fn entries_good(entries: EntriesView<'_>, b: Book) -> bool
    requires used_in_bounds { (b.used ≤ length entries.nums.now) × (b.used ≤ length entries.numbers.now) × (b.used ≤ length entries.dates.now) }
    requires first_value { (is_receipt b.first ≡ true) × (b.used ≤ 4096) }
    ensures value { result ≡ all_from (entry_good b) 0 (entries_of (entries_seen entries.entry) b.used) }
    ensures whole_book { result ≡ true → WholeBook (entries_seen entries.entry) b.used }
{
    for i in 0..b.used {
        if !entry_good(b, i, rows::load_entry(entries, i)) {
            return false;
        }
    }
    true
}

// Whether the first receipt is one, and the frozen day a date.
#[tactic(auto, unfolding(crate::specs::BookValid::book_head))]
fn head_good(b: Book) -> bool
    ensures { result ≡ book_head b }
{
    codes::is_receipt(b.first) && b.frozen.is_valid()
}

// Whether a lent book is in its ranges.
#[tactic(auto, using(crate::proofs::ValidLaws::book_laws), unfolding(crate::specs::BookValid::book_good))]
pub fn book_good(entries: EntriesView<'_>, b: Book) -> bool
    ensures value { result ≡ book_good b (entries_seen entries.entry) }
    ensures ready_book { result ≡ true → ReadyBook b (entries_seen entries.entry) }
{
    entries.is_lent(b.used)
        && head_good(b)
        && entries_good(entries, b)
        && counts::days_good(entries, b.used)
}
