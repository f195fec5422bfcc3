// How many entries are on a day: of one day, and of each day of a book in one pass.
ghost use Rattle.std.specs.Prelude.{true, ◌≡◌, ◌<◌, ◌≤◌, length, replicate};
ghost use Rattle.days.specs.Calendar.{is_day};
ghost use Rattle.book.specs.Entries.{entries_of};
ghost use Rattle.book.specs.Lent.{entries_seen};
ghost use Rattle.book_validity.specs.BookValid.{day_count, days_good, Dated};
ghost use Rattle.book_validity.specs.BookWalk.{day_slot};

use book::rows;
use book::rows::EntriesView;
use dates::date;
use days::calendar::Day;

// How many entries one day has at most.
pub const DAY_MOST: usize = 512;

// The same as a counter holds it.
const COUNT_MOST: u16 = 512;

// How many of the first `used` entries are on the day.
#[tactic(auto, using(crate::proofs::CountLaws::count_laws))]
pub fn count_day(entries: EntriesView<'_>, used: usize, day: Day) -> usize
    requires used_in_bounds { (used ≤ length entries.nums.now) × (used ≤ length entries.numbers.now) × (used ≤ length entries.dates.now) }
    requires dated { Dated (entries_seen entries) used }
    ensures { result ≡ day_count day (entries_of (entries_seen entries.entry) used) }
{
    let mut n = 0;
    for i in 0..used {
        let e = rows::load_entry(entries, i);
        if date::written_on(day, e.date) {
            n += 1;
        }
    }
    n
}

// The slot of a day.
fn day_slot(d: Day) -> usize
    requires { is_day d ≡ true }
    ensures { (result ≡ day_slot d) × (result < 38432) }
{
    (usize::from(d.year) - 2000) * 384 + usize::from(d.month) * 32 + usize::from(d.day)
}

// A count of 0 for each slot.
fn no_counts() -> [u16; 38432]
    ensures { result ≡ replicate 38432 0 }
{
    [0u16; 38432]
}

// Whether no day has more than 512 of the first `used` entries; a book of so few has none.
pub(crate) fn days_good(entries: EntriesView<'_>, used: usize) -> bool
    requires used_in_bounds { (used ≤ length entries.nums.now) × (used ≤ length entries.numbers.now) × (used ≤ length entries.dates.now) }
    requires dated { Dated (entries_seen entries) used }
    ensures { result ≡ days_good (entries_of (entries_seen entries.entry) used) }
{
    if used <= DAY_MOST {
        return true;
    }
    let mut counts = no_counts();
    for i in 0..used {
        let e = rows::load_entry(entries, i);
        let s = day_slot(date::written_day(e.date));
        if COUNT_MOST <= counts[s] {
            return false;
        }
        counts[s] += 1;
    }
    true
}
