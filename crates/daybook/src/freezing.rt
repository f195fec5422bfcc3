// Freezing a day.
ghost use Rattle.std.specs.Prelude.{◌≡◌, ◌&&◌};
ghost use Rattle.days.specs.Calendar.{next_day, on_day};
ghost use Rattle.daybook.specs.Freezing.{freeze};
ghost use Rattle.book.specs.Lent.{entries_seen};

use book::Book;
use book::rows::EntriesView;
use book_validity::valid;
use days::calendar::Day;

// The code of a freezing, and the book as it leaves it. C gets it so (`roosteryore_freeze`).
#[repr(C)]
#[derive(Clone, Copy)]
pub struct Freezing {
    pub code: u64,
    pub book: Book,
}

// Whether the day is the next to be frozen, and the last one has its report.
pub(crate) fn may_freeze(b: Book, day: Day) -> bool
    ensures { result ≡ on_day day (next_day b.frozen) && b.settled }
{
    day.follows(b.frozen) && b.settled
}

// Freezes the day after the last frozen one; a fault keeps all.
#[tactic(auto, unfolding(crate::specs::Freezing::freeze, crate::specs::Freezing::freeze_on))]
pub fn freeze(entries: EntriesView<'_>, book: Book, day: Day) -> Freezing
    ensures { result ≡ freeze book (entries_seen entries.entry) day }
{
    if !valid::book_good(entries, book) {
        return Freezing { code: 68, book };
    }
    if !day.is_valid() {
        return Freezing { code: 55, book };
    }
    if !may_freeze(book, day) {
        return Freezing { code: 66, book };
    }
    Freezing {
        code: 0,
        book: Book {
            frozen: day,
            settled: false,
            ..book
        },
    }
}
