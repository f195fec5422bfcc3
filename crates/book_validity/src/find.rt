// The entry of a receipt, by its place.
ghost use Rattle.std.specs.Prelude.{true, ◌≡◌};
ghost use Rattle.book.specs.Entries.{entries_of, find_entry};
ghost use Rattle.book.specs.Lent.{entries_seen};
ghost use Rattle.book_validity.specs.BookValid.{book_good};

use book::Book;
use book::rows::EntriesView;

// The entry of a receipt: receipts are consecutive, so its place is known.
#[tactic(auto, using(crate::proofs::BookLaws::find_laws))]
pub fn find_entry(entries: EntriesView<'_>, b: Book, receipt: u64) -> Option<usize>
    requires { book_good b (entries_seen entries) ≡ true }
    ensures { result ≡ find_entry receipt (entries_of (entries_seen entries.entry) b.used) }
{
    let place = receipt.checked_sub(b.first)?;
    if place < b.used as u64 {
        Some(place as usize)
    } else {
        None
    }
}
