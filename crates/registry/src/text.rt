// The text of a registry: lines ended by 0D 0A.
ghost use Rattle.std.specs.Prelude.{◌+◌, ◌≤◌, ◌≡◌, ◌&&◌, cond, ltb, leb, eqb, take, drop};
ghost use Rattle.registry.specs.Registry.{line_end, line_count, fault_code, BadLine, TooMany};

use texts::scan;

// How many lines a registry has at most.
pub const LINES_MOST: usize = 512;

// What is wrong with a registry, with its code.
#[derive(Clone, Copy, PartialEq, Eq)]
pub enum Fault {
    // A line is malformed, not of the day, or not ended.
    BadLine = 52,
    // There are more than 512 lines.
    TooMany = 53,
    // The receipts of good lines do not rise.
    Unordered = 54,
}

impl From<Fault> for u64 {
    ghost from_gives = { λ fault n. n ≡ fault_code fault };

    fn from(fault: Fault) -> u64 {
        fault as u64
    }
}

// Whether two bytes are 0D 0A.
pub(crate) fn is_end(b: u8, c: u8) -> bool
    ensures { result ≡ eqb b 13 && eqb c 10 }
{
    b == b'\r' && c == b'\n'
}

// Where the line that begins at the cursor ends: the place of its 0D 0A, or the end of the text.
pub fn end_of_line(s: &[u8], at: usize) -> usize
    ensures { result ≡ at + line_end (drop at s.now) }
{
    if s.len() <= at {
        return at;
    }
    for i in scan::pass_others(s, at, b'\r')..s.len() - 1 {
        if is_end(s[i], s[i + 1]) {
            return i;
        }
    }
    s.len()
}

// The line from the cursor to its end.
pub fn line_to(s: &[u8], at: usize, end: usize) -> &[u8]
    requires { end ≡ at + line_end (drop at s.now) }
    ensures { result.now ≡ take (line_end (drop at s.now)) (drop at s.now) }
{
    scan::first_bytes(scan::bytes_from(s, at), end - at)
}

// How many lines a text has; an unended rest counts as one.
fn count_lines(s: &[u8]) -> usize
    ensures { result ≡ line_count s.now }
{
    let mut n: usize = 0;
    let mut at: usize = 0;
    while at < s.len() {
        let e = end_of_line(s, at);
        if s.len() <= e {
            return n + 1;
        }
        n += 1;
        at = e + 2;
    }
    n
}

// Whether receipts that rose so far still do.
pub fn still_rise(rose: bool, last: u64, next: u64) -> bool
    ensures { result ≡ rose && ltb last next }
{
    rose && last < next
}

// The fault of lines that are not all good, n of them before the cursor.
#[tactic(auto, using(crate::proofs::CheckLaws::fault_behind_laws))]
pub fn fault_behind(s: &[u8], at: usize, n: usize) -> Fault
    requires { n ≤ 512 }
    ensures { result ≡ cond (leb (n + line_count (drop at s.now)) 512) BadLine TooMany }
{
    if LINES_MOST - n < count_lines(scan::bytes_from(s, at)) {
        Fault::TooMany
    } else {
        Fault::BadLine
    }
}
