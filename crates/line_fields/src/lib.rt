#![tactic(auto)]
// The fields of a line, split by every space.
pub mod lines;

ghost use Rattle.std.specs.Prelude.{◌≡◌, ◌&&◌, eqb, leb};
ghost use Rattle.line_fields.specs.LineFields.{field_at, field_count, has_letter, params_in};

use texts::scan;

// Field i, from 0; empty where the line has fewer.
pub fn field_at(line: &[u8], i: usize) -> &[u8]
    ensures { result.now ≡ field_at i line.now }
{
    let mut rest = line;
    for _ in 0..i {
        if rest.is_empty() {
            return rest;
        }
        rest = scan::after_byte(rest, b' ');
    }
    scan::before_byte(rest, b' ')
}

// How many fields a line has. A sum and no `filter`, so that the compiler takes many bytes together.
pub fn count_fields(line: &[u8]) -> usize
    ensures { result ≡ field_count line.now }
{
    let mut ended = 0;
    for b in line {
        ended += usize::from(*b == b' ');
    }
    ended + 1
}

// Whether a line begins with this letter alone.
fn has_letter(line: &[u8], letter: u8) -> bool
    ensures { result ≡ has_letter letter line.now }
{
    scan::same_bytes(field_at(line, 0), &[letter])
}

// Whether a line has this letter and so many fields.
pub fn has_form(line: &[u8], letter: u8, count: usize) -> bool
    ensures { result ≡ has_letter letter line.now && eqb (field_count line.now) count }
{
    has_letter(line, letter) && count_fields(line) == count
}

// Whether a line has this letter and at least so many fields.
pub fn has_least(line: &[u8], letter: u8, count: usize) -> bool
    ensures { result ≡ has_letter letter line.now && leb count (field_count line.now) }
{
    has_letter(line, letter) && count <= count_fields(line)
}

// What stands behind the second space.
pub fn params_in(line: &[u8]) -> &[u8]
    ensures { result.now ≡ params_in line.now }
{
    scan::after_byte(scan::after_byte(line, b' '), b' ')
}
