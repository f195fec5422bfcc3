// What a line prints.
ghost use Rattle.std.specs.Prelude.{◌≡◌, ◌∷◌, ◌≤◌, length};
ghost use Rattle.texts.specs.Digits.{decimal};
ghost use Rattle.texts.specs.Lists.{written, cursor_after};
ghost use Rattle.figures.specs.Figures.{signed_text, figures, printed};
ghost use Rattle.figures.specs.Sums.{Summable, nameless, counts_text};
ghost use Rattle.figures.specs.Listing.{Put};

use crate::sums;
use table::Head;
use texts::{digits, out, scan};

// Writes a byte and a number behind it at the cursor, where both have room.
pub(crate) fn write_led(lead: u8, n: u64, dst: &mut [u8], at: usize) -> usize
    ensures { (result ≡ cursor_after dst.old at (lead ∷ decimal n)) × (dst.new ≡ written dst.old at (lead ∷ decimal n)) }
{
    let mut row = [lead; 24];
    let k = digits::write_digits(n, &mut row, 1);
    out::put_bytes(scan::first_bytes(&row, k), dst, at)
}

// Writes a number with its sign at the cursor, where it has room.
fn write_signed(z: i64, dst: &mut [u8], at: usize) -> usize
    ensures { (result ≡ cursor_after dst.old at (signed_text z)) × (dst.new ≡ written dst.old at (signed_text z)) }
{
    let n = z.unsigned_abs();
    if z < 0 {
        write_led(b'-', n, dst, at)
    } else {
        digits::write_digits(n, dst, at)
    }
}

// Puts code and records used into a row that has room for any, each with a space behind it.
fn put_counts(code: u64, used: u64, row: &mut [u8]) -> usize
    requires { 64 ≤ length row.old }
    ensures { Put row.old 0 (counts_text code used) result row.new }
{
    let a = digits::write_digits(code, row, 0);
    let b = write_led(b' ', used, row, a);
    out::put_bytes(b" ", row, b)
}

// Puts code, records used and sum of balances into such a row.
fn put_figures(code: u64, balances: &[i64; 256], h: Head, row: &mut [u8]) -> usize
    requires summable { Summable (nameless h balances.now) }
    requires in_bounds { 64 ≤ length row.old }
    ensures { Put row.old 0 (figures code (nameless h balances.now)) result row.new }
{
    let sum = sums::sum_balances(balances, h);
    let used = h.used as u64;
    let a = put_counts(code, used, row);
    let b = write_signed(sum, row, a);
    out::put_bytes(b"\n", row, b)
}

// Writes what a line prints at the cursor, where it has room. Names of accounts are not printed.
pub fn write_turn(code: u64, balances: &[i64; 256], h: Head, dst: &mut [u8], at: usize) -> usize
    requires { Summable (nameless h balances.now) }
    ensures { (result ≡ cursor_after dst.old at (printed code (nameless h balances.now))) × (dst.new ≡ written dst.old at (printed code (nameless h balances.now))) }
{
    if code == 99 {
        return out::put_bytes(b"99\n", dst, at);
    }
    let mut row = [0u8; 64];
    let n = put_figures(code, balances, h, &mut row);
    out::put_bytes(scan::first_bytes(&row, n), dst, at)
}
