// Amounts: roubles, with kopecks behind a point or without; held in kopecks.
ghost use Rattle.std.specs.Prelude.{◌≡◌, drop};
ghost use Rattle.fields.specs.Amount.{is_amount, amount_read, kopecks_after, kopecks_from, amount_bytes};
ghost use Rattle.texts.specs.Lists.{written, cursor_after};

use texts::digits::TwentyDigits;
use texts::{digits, out, scan};

// The most that one payment or draw is, in kopecks.
const AMOUNT_MOST: u64 = 999999999;

// Whether kopecks are an amount.
pub fn is_amount(kopecks: u64) -> bool
    ensures { result ≡ is_amount kopecks }
{
    digits::is_within(1, AMOUNT_MOST, kopecks)
}

// The kopecks that one or two digits after the point give.
#[tactic(auto, using(crate::proofs::AmountLaws::kopecks_laws))]
fn read_kopecks(f: &[u8]) -> Option<u64>
    ensures { result ≡ kopecks_after f.now }
{
    let v = digits::read_digits(f, 2)?;
    Some(if f.len() == 1 { v * 10 } else { v })
}

// The kopecks of what stands from the point at p on, or of nothing.
#[tactic(auto, using(crate::proofs::AmountLaws::point_laws))]
fn kopecks_from(s: &[u8], p: usize) -> Option<u64>
    ensures { result ≡ kopecks_from (drop p s.now) }
{
    if p < s.len() {
        read_kopecks(&s[p + 1..])
    } else {
        Some(0)
    }
}

// The kopecks of an amount, 1 to 999,999,999.
#[tactic(auto, using(crate::proofs::AmountLaws::read_laws))]
pub fn read_amount(s: &[u8]) -> Option<u64>
    ensures { result ≡ amount_read s.now }
{
    let p = scan::find_byte(s, b'.');
    let whole = digits::read_digits(&s[..p], 7)?;
    let part = kopecks_from(s, p)?;
    let sum = whole * 100 + part;
    if sum == 0 { None } else { Some(sum) }
}

// Writes an amount with two decimals at the cursor, where it has room.
#[tactic(auto, using(crate::proofs::AmountLaws::write_laws))]
pub fn write_amount(kopecks: u64, dst: &mut [u8], at: usize) -> usize
    ensures { (result ≡ cursor_after dst.old at (amount_bytes kopecks)) × (dst.new ≡ written dst.old at (amount_bytes kopecks)) }
{
    let TwentyDigits { digits, zeros } = digits::twenty(kopecks / 100);
    if dst.len() < at || dst.len() - at < 23 - zeros {
        return at;
    }
    let c = kopecks % 100;
    let low = [b'.', b'0' + (c / 10 % 10) as u8, b'0' + (c % 10) as u8];
    let p = out::put_bytes(&digits[zeros..], dst, at);
    out::put_bytes(&low, dst, p)
}
