// What a line prints, and how much that can be.
ghost use Rattle.std.specs.Prelude.{◌≡◌, ◌&&◌, ◌+◌, ◌-◌, ◌≤◌, leb, ltb, length};
ghost use Rattle.table.specs.Lent.{rows_seen};
ghost use Rattle.figures.specs.Sums.{Summable, nameless};
ghost use Rattle.figures.specs.Listing.{Put};
ghost use Rattle.orders.specs.Order.{shown_text};
ghost use Rattle.console.specs.Feed.{line_room};
ghost use Rattle.console.specs.Parts.{Showable};

use figures::{daily, print};
use orders::turn::{Shown, Turn};
use table::rows::TableView;

// The most records of a table that is not refused.
const RECORDS_MOST: usize = 4096;

// How many bytes one line can print, with a table of so many records.
#[tactic(auto, unfolding(crate::specs::Feed::line_room))]
pub(crate) fn line_room(records: usize) -> usize
    ensures { result ≡ line_room records }
{
    64 * (records.min(RECORDS_MOST) + 2)
}

// Whether there is input left, and room for what its next line can print.
pub(crate) fn goes_on(at: usize, len: usize, size: usize, room: usize, need: usize) -> bool
    requires { size ≤ room }
    ensures { result ≡ ltb at len && leb need (room - size) }
{
    at < len && need <= room - size
}

// Writes what a line prints at the cursor.
pub(crate) fn write_shown(
    table: TableView<'_>,
    balances: &[i64; 256],
    r: Turn,
    out: &mut [u8],
    at: usize,
) -> usize
    requires summable { Summable (nameless r.console.head balances.now) × Showable r.shown (rows_seen table) r.console.head.used }
    requires nums_in_bounds { at + line_room (length table.nums.now) ≤ length out.old }
    ensures { Put out.old at
        (shown_text r.shown r.code (nameless r.console.head balances.now) (rows_seen table.entry)) result out.new }
{
    let head = r.console.head;
    match r.shown {
        Shown::Figures => print::write_turn(r.code, balances, head, out, at),
        Shown::Payments(d) => { daily::write_day(table, head.used, d, out, at) }
    }
}
