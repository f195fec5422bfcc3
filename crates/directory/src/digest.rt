// A number that tells most accounts apart: equal numbers and types have equal digests.
ghost use Rattle.std.specs.Prelude.{◌≡◌, ◌<◌};
ghost use Rattle.directory.specs.Directory.{mixed, digest_of};

use fields::number::Number;
use texts::scan;

// The bytes mixed into h, one after the other.
fn mix(h: u64, s: &[u8]) -> u64
    requires { h < 4294967296 }
    ensures { result ≡ mixed h s.now }
{
    let mut x = h;
    for b in s {
        x = (x * 33 + u64::from(*b)) % 4294967296;
    }
    x
}

// The digest of a number and a type.
pub(crate) fn make_digest(n: Number, kind: u64) -> u64
    ensures { result ≡ digest_of n kind }
{
    mix(kind % 4294967296, scan::first_bytes(&n.bytes, n.len))
}
