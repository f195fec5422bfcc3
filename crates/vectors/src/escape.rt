// Escapes, by which a line gives any byte: \t, \r, \n, \\ and \xHH. Another backslash is itself.
ghost use Rattle.std.specs.Prelude.{◌≡◌, ◌<◌, length, get_or};
ghost use Rattle.vectors.specs.Escapes.{hex_unit, unit_of, unit_in, unescaped_count, unescaped_into};

use coding::url;

// A byte, and how many bytes of the text give it.
#[derive(Clone, Copy)]
pub(crate) struct Unit {
    pub byte: u8,
    pub width: usize,
}

// The byte at i, or 0 past the end.
fn byte_at(s: &[u8], i: usize) -> u8
    ensures { result ≡ get_or s.now i 0 }
{
    s.get(i).copied().unwrap_or(0)
}

// What `\x` and two bytes behind it give.
#[tactic(auto, unfolding(crate::specs::Escapes::hex_unit), using(coding::proofs::UnitLaws::high_fits, coding::proofs::UnitLaws::pair_fits))]
fn hex_unit(h: u8, l: u8) -> Unit
    ensures { result ≡ hex_unit h l }
{
    if url::is_hex(h) && url::is_hex(l) {
        Unit {
            byte: url::hex_value(h) * 16 + url::hex_value(l),
            width: 4,
        }
    } else {
        Unit {
            byte: b'\\',
            width: 1,
        }
    }
}

// What the first of four bytes gives.
#[tactic(auto, unfolding(crate::specs::Escapes::unit_of, crate::specs::Escapes::escaped))]
fn unit_of(b: u8, c: u8, h: u8, l: u8) -> Unit
    ensures { result ≡ unit_of b c h l }
{
    if b != b'\\' {
        return Unit { byte: b, width: 1 };
    }
    let byte = match c {
        b't' => b'\t',
        b'r' => b'\r',
        b'n' => b'\n',
        b'\\' => b'\\',
        b'x' => return hex_unit(h, l),
        _ => return Unit { byte: b, width: 1 },
    };
    Unit { byte, width: 2 }
}

// What the byte at i gives.
#[tactic(auto, unfolding(crate::specs::Escapes::unit_in))]
fn unit_at(s: &[u8], i: usize) -> Unit
    requires { i < length s.now }
    ensures { result ≡ unit_in s.now i }
{
    unit_of(
        s[i],
        byte_at(s, i + 1),
        byte_at(s, i + 2),
        byte_at(s, i + 3),
    )
}

// Decodes a text into a buffer that has room for it, and hands back how many bytes it gave.
pub fn unescape(s: &[u8], dst: &mut [u8]) -> usize
    ensures { (result ≡ unescaped_count dst.old s.now) × (dst.new ≡ unescaped_into dst.old s.now) }
{
    if dst.len() < s.len() {
        return 0;
    }
    let mut i: usize = 0;
    let mut j: usize = 0;
    while i < s.len() {
        let u = unit_at(s, i);
        dst[j] = u.byte;
        i += u.width;
        j += 1;
    }
    j
}
