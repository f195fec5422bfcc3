#![tactic(auto)]
// The registry of a frozen day.
ghost use Rattle.std.specs.Prelude.{◌≡◌, true, ◌≤◌, length};
ghost use Rattle.texts.specs.Lists.{written, cursor_after};
ghost use Rattle.dates.specs.Date.{is_written};
ghost use Rattle.book.specs.Entries.{entries_of};
ghost use Rattle.book.specs.Lent.{entries_seen};
ghost use Rattle.book_validity.specs.BookValid.{book_good, ReadyBook};
ghost use Rattle.listing.specs.Listing.{is_listed, entry_line, registry_of, listing_of, write_registry};

use book::rows::EntriesView;
use book::{Book, Entry, State, rows, states};
use book_validity::valid;
use dates::date;
use daybook::Writing;
use days::calendar::Day;
use lines::line::Line;

// How many bytes a registry's buffer has at least.
const REGISTRY_ROOM: usize = 65536;

// Whether the day's registry lists an entry whose date is known to be written.
#[tactic(auto, unfolding(crate::specs::Listing::is_listed))]
pub fn is_listed(day: Day, e: Entry) -> bool
    requires { is_written e.date ≡ true }
    ensures { result ≡ is_listed day e }
{
    date::written_on(day, e.date) && e.state != states::state_number(State::Cancelled)
}

// The line of an entry.
pub(crate) fn entry_line(e: Entry) -> Line
    ensures { result ≡ entry_line e }
{
    let Entry {
        number,
        kind,
        date,
        amount,
        receipt,
        ..
    } = e;
    Line {
        number,
        kind,
        date,
        amount,
        receipt,
    }
}

// Writes the lines of the day's entries from the start of the buffer on.
pub(crate) fn write_lines(entries: EntriesView<'_>, b: Book, day: Day, out: &mut [u8]) -> usize
    requires dates_value { (book_good b (entries_seen entries) ≡ true) × ReadyBook b (entries_seen entries) }
    requires in_bounds { 65536 ≤ length out.old }
    ensures { (result ≡ cursor_after out.old 0 (registry_of day (entries_of (entries_seen entries.entry) b.used)))
        × (out.new ≡ written out.old 0 (registry_of day (entries_of (entries_seen entries.entry) b.used))) }
{
    let mut at: usize = 0;
    for i in 0..b.used {
        let e = rows::load_entry(entries, i);
        if is_listed(day, e) {
            at = entry_line(e).put(out, at);
        }
    }
    at
}

// Writes the registry of a day up to the frozen one, alike each time; a fault keeps all.
// The code is as `roosteryore_write_registry` gives it to C.
#[tactic(auto, unfolding(crate::specs::Listing::write_registry, crate::specs::Listing::list_on))]
pub fn write_registry(entries: EntriesView<'_>, book: Book, day: Day, out: &mut [u8]) -> Writing
    ensures { listing_of result out.new ≡ write_registry book (entries_seen entries.entry) day out.old }
{
    if !valid::book_good(entries, book) {
        return Writing { code: 68, size: 0 };
    }
    if out.len() < REGISTRY_ROOM {
        return Writing { code: 50, size: 0 };
    }
    if !day.is_valid() || book.frozen.before(day) {
        return Writing { code: 55, size: 0 };
    }
    let size = write_lines(entries, book, day, out);
    Writing { code: 0, size }
}
