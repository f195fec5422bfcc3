// Days that are frozen.
ghost use Rattle.std.specs.Prelude.{◌≡◌};
ghost use Rattle.daybook.specs.Freezing.{is_frozen};

use book::Book;
use dates::date;

// Whether a date is on or before the frozen day.
#[tactic(auto, unfolding(crate::specs::Freezing::is_frozen))]
pub fn is_frozen(b: Book, written: [u8; 19]) -> bool
    ensures { result ≡ is_frozen b written }
{
    date::is_up_to(b.frozen, written)
}
