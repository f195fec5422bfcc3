// Numbers of accounts: 1 to 30 bytes, each 0x21 to 0x7E or a letter of windows-1251.
ghost use Rattle.std.specs.Prelude.{◌≡◌, ◌≤◌, length, drop};
ghost use Rattle.texts.specs.Lists.{every, written, cursor_after};
ghost use Rattle.fields.specs.Number.{number_byte, number_text, is_number, is_number_text, number_of, number_read, same_number};

use texts::{out, scan};

// The first `len` bytes count; a number that is read is zero after them. C passes it so: no slice, no heap.
#[repr(C)]
#[derive(Clone, Copy)]
pub struct Number {
    pub bytes: [u8; 30],
    pub len: usize,
}

// Whether a number may have this byte.
#[tactic(auto, unfolding(crate::specs::Number::number_byte))]
fn is_number_byte(b: u8) -> bool
    ensures { result ≡ number_byte b }
{
    b.is_ascii_graphic() || b == 0xA8 || b == 0xB8 || 0xC0 <= b
}

// Passes the first bytes that are 21 to 7E, as those of most names all are: one range is told quicker than four.
fn pass_visible(s: &[u8]) -> usize
    ensures { (result ≤ length s.now) × (every number_byte s.now ≡ every number_byte (drop result s.now)) }
{
    s.iter()
        .position(|b| !b.is_ascii_graphic())
        .unwrap_or(s.len())
}

// Whether each of the bytes is one that a number may have.
fn all_number_bytes(s: &[u8]) -> bool
    ensures { result ≡ every number_byte s.now }
{
    s[pass_visible(s)..].iter().all(|b| is_number_byte(*b))
}

// Whether a text is a number.
#[tactic(auto, unfolding(crate::specs::Number::is_number_text))]
pub fn is_text(s: &[u8]) -> bool
    ensures { result ≡ is_number_text s.now }
{
    (1..=30).contains(&s.len()) && all_number_bytes(s)
}

// The number of a text that is one.
pub fn number_of(s: &[u8]) -> Number
    requires { length s.now ≤ 30 }
    ensures { result ≡ number_of s.now }
{
    let mut bytes = [0; 30];
    bytes[..s.len()].copy_from_slice(s);
    Number {
        bytes,
        len: s.len(),
    }
}

// A number, from its bytes.
#[tactic(auto, using(crate::proofs::NumberLaws::read_number_laws))]
pub fn read_number(s: &[u8]) -> Option<Number>
    ensures { result ≡ number_read s.now }
{
    if is_text(s) { Some(number_of(s)) } else { None }
}

impl Number {
    // Whether a lent number is one.
    #[tactic(auto, unfolding(crate::specs::Number::is_number))]
    pub fn is_valid(self) -> bool
        ensures { result ≡ is_number self }
    {
        (1..=30).contains(&self.len) && all_number_bytes(scan::first_bytes(&self.bytes, self.len))
    }

    // Whether two numbers are equal: their lengths, and their bytes over the length. Those behind it count for nothing, so that it is not the derived equality.
    #[tactic(auto, unfolding(crate::specs::Number::same_number))]
    pub fn same(self, other: Number) -> bool
        ensures { result ≡ same_number self other }
    {
        self.len == other.len
            && scan::same_bytes(
                scan::first_bytes(&self.bytes, self.len),
                scan::first_bytes(&other.bytes, other.len),
            )
    }

    // Writes a number at the cursor, where it has room.
    pub fn write(self, dst: &mut [u8], at: usize) -> usize
        ensures { (result ≡ cursor_after dst.old at (number_text self)) × (dst.new ≡ written dst.old at (number_text self)) }
    {
        out::put_bytes(scan::first_bytes(&self.bytes, self.len), dst, at)
    }
}
