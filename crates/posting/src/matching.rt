// Whether a line of a registry matches a record.
ghost use Rattle.std.specs.Prelude.{◌≡◌};
ghost use Rattle.posting.specs.Posting.{matches};

use lines::line::Line;
use table::{Record, payment};

// Whether a line and a record have one receipt and are the same in all four.
#[tactic(auto, unfolding(crate::specs::Posting::matches))]
pub fn matches_record(x: Line, r: Record) -> bool
    ensures { result ≡ matches x r }
{
    r.receipt == x.receipt && payment::same_payment(x.number, x.kind, x.amount, x.date, r)
}
