// Hints where accounts stand: a guess for each slot, to be tested.
ghost use Rattle.std.specs.Prelude.{◌<◌};

use fields::number::Number;

// Four bytes mixed into a slot. The factors keep names that run in sequence apart.
fn mix(h: usize, a: u8, b: u8, c: u8, d: u8) -> usize
    requires { h < 4096 }
    ensures { result < 4096 }
{
    (h * 369
        + usize::from(a)
        + 211 * usize::from(b)
        + 2828 * usize::from(c)
        + 1017 * usize::from(d))
        % 4096
}

// The slot of an account's hint, from four bytes of its number at a time; each step waits for the one before, so there are few. Up to three bytes behind the number
// may count too: where one is not zero the hint is missed, and the account is searched for.
pub(crate) fn slot(n: Number, kind: u64) -> usize
    ensures { result < 4096 }
{
    let mut h = (kind % 4096) as usize;
    for k in 0..7 {
        let i = 4 * k;
        if n.len <= i {
            return h;
        }
        h = mix(
            h,
            n.bytes[i],
            n.bytes[i + 1],
            n.bytes[i + 2],
            n.bytes[i + 3],
        );
    }
    h
}
