// The records of a day.
ghost use Rattle.std.specs.Prelude.{◌≡◌};
ghost use Rattle.table.specs.Daily.{stands_on};

use crate::Record;
use dates::date;
use days::calendar::Day;

// Whether a record stands in that state and is of that day, by its own date.
pub fn stands_on(r: Record, day: Day, state: u64) -> bool
    ensures { result ≡ stands_on day state r }
{
    r.state == state && date::is_on(day, r.date)
}
