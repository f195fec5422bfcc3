// The state that a session begins with.
ghost use Rattle.std.specs.Prelude.{◌≡◌};
ghost use Rattle.console.specs.Session.{new_head};

use days::calendar::Day;
use orders::ConsoleHead;
use table::Head;

// No accounts and no record, not started.
pub fn new_console() -> ConsoleHead
    ensures { result ≡ new_head }
{
    let closed = Day {
        year: 0,
        month: 0,
        day: 0,
    };
    ConsoleHead {
        started: false,
        head: Head {
            count: 0,
            closed,
            used: 0,
        },
    }
}
