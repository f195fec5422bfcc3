// Fields of ASCII digits.
ghost use Rattle.std.specs.Prelude.{◌≡◌, ◌+◌, ◌*◌, ◌^◌, ◌<◌, ltb};
ghost use Rattle.texts.specs.Digits.{digits_read, range_read, within, fixed, lead_zeros, decimal};
ghost use Rattle.texts.specs.Lists.{written, cursor_after};

use crate::out;

// Whether a value with one digit more fits 64 bits. Of a small value no quotient is made.
fn more_fits(value: u64, d: u64) -> bool
    requires { d < 10 }
    ensures { result ≡ ltb (value * 10 + d) (2 ^ 64) }
{
    value < u64::MAX / 10 || value <= (u64::MAX - d) / 10
}

// The value of a field of 1 to `most` digits that fits 64 bits.
pub fn read_digits(s: &[u8], most: usize) -> Option<u64>
    ensures { result ≡ digits_read most s.now }
{
    if s.is_empty() || most < s.len() {
        return None;
    }
    let mut value = 0;
    for b in s {
        if !b.is_ascii_digit() {
            return None;
        }
        let d = u64::from(*b - b'0');
        if !more_fits(value, d) {
            return None;
        }
        value = value * 10 + d;
    }
    Some(value)
}

// Whether a value lies from low to high.
pub fn is_within(low: u64, high: u64, v: u64) -> bool
    ensures { result ≡ within low high v }
{
    low <= v && v <= high
}

// The value of a field of 1 to `most` digits that lies from low to high.
#[tactic(auto, unfolding(crate::specs::Digits::range_read))]
pub fn read_range(s: &[u8], most: usize, low: u64, high: u64) -> Option<u64>
    ensures { result ≡ range_read most low high s.now }
{
    read_digits(s, most).filter(|v| is_within(low, high, *v))
}

// The twenty digits of a number, and how many zeros lead, at least one digit kept.
#[derive(Clone, Copy)]
pub struct TwentyDigits {
    pub digits: [u8; 20],
    pub zeros: usize,
}

// Zeros are there from the start: the digits are made from the last on, until none is left.
pub fn twenty(n: u64) -> TwentyDigits
    ensures { (result.digits ≡ fixed 20 n) × (result.zeros ≡ lead_zeros result.digits) }
{
    let mut digits = [b'0'; 20];
    digits[19] = b'0' + (n % 10) as u8;
    let mut left = n / 10;
    let mut zeros = 19;
    while 0 < left {
        zeros -= 1;
        digits[zeros] = b'0' + (left % 10) as u8;
        left /= 10;
    }
    TwentyDigits { digits, zeros }
}

// Writes a number without leading zeros at the cursor, where it has room.
pub fn write_digits(n: u64, dst: &mut [u8], at: usize) -> usize
    ensures { (result ≡ cursor_after dst.old at (decimal n)) × (dst.new ≡ written dst.old at (decimal n)) }
{
    let TwentyDigits { digits, zeros } = twenty(n);
    out::put_bytes(&digits[zeros..], dst, at)
}
