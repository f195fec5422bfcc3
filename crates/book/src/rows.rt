// The book's rows, read and written an entry at a time.
ghost use Rattle.lists.specs.Rows.{SameLoan};
ghost use Rattle.std.specs.Prelude.{◌≡◌, [], ◌<◌, length, get_or};
ghost use Rattle.book.specs.Entries.{entry_from, entry_at, book_with};
ghost use Rattle.book.specs.Lent.{entries_in, entries_seen};

use crate::Entry;
use fields::number::Number;
use lists::rows::{Rows, RowsView};

// The book as it is lent, to be written or to be read alone.
pub type Entries<'a> = Rows<'a, [u64; 6], [u8; 19]>;

pub type EntriesView<'a> = RowsView<'a, [u64; 6], [u8; 19]>;

// The entry of these numbers, account number and date.
fn entry_of(w: [u64; 6], bytes: [u8; 30], date: [u8; 19]) -> Entry
    ensures value { result ≡ entry_from w bytes date }
    ensures w_len { length w ≡ 6 }
{
    let [receipt, len, kind, amount, state, authcode] = w;
    Entry {
        receipt,
        number: Number {
            bytes,
            len: len as usize,
        },
        kind,
        amount,
        date,
        state,
        authcode,
    }
}

// The entry at i.
pub fn load_entry(entries: EntriesView<'_>, i: usize) -> Entry
    requires { (i < length entries.nums.now) × (i < length entries.numbers.now) × (i < length entries.dates.now) }
    ensures value { result ≡ entry_at (entries_seen entries.entry) i }
    ensures i_len { length (get_or entries.entry.nums.now i []) ≡ 6 }
    ensures bytes_len { (length result.number.bytes ≡ 30) × (length result.date ≡ 19) }
{
    entry_of(entries.nums[i], entries.numbers[i], entries.dates[i])
}

// Puts e at i.
pub fn store_entry(entries: &mut Entries<'_>, i: usize, e: Entry)
    requires { (i < length entries.old.nums.now) × (i < length entries.old.numbers.now) × (i < length entries.old.dates.now) }
    ensures value { entries_in entries.new ≡ book_with (entries_in entries.old) i e }
    ensures same_loan { SameLoan entries.old entries.new }
{
    let Entry {
        number: Number { bytes, len },
        date,
        ..
    } = e;
    entries.nums[i] = [e.receipt, len as u64, e.kind, e.amount, e.state, e.authcode];
    entries.numbers[i] = bytes;
    entries.dates[i] = date;
}
