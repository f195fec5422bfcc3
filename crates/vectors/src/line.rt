// The headings of the input, and the words that its lines begin with.
ghost use Rattle.std.specs.Prelude.{◌≡◌, cond, ◌≤◌, ltb};
ghost use Rattle.vectors.specs.Lines.{is_heading, place_of, spaced};

use texts::scan;

// Whether a line is a heading or empty: it is printed as it is.
pub fn is_heading(line: &[u8]) -> bool
    ensures { result ≡ is_heading line.now }
{
    line.is_empty() || line[0] == b'#'
}

// The place of a word among others that one space splits, or their number where it is none of them.
pub fn place(word: &[u8], words: &[u8]) -> usize
    ensures { result ≡ place_of word.now (spaced words.now) }
{
    let mut at: usize = 0;
    let mut i: usize = 0;
    while at <= words.len() {
        let rest = scan::bytes_from(words, at);
        let p = scan::find_byte(rest, b' ');
        if scan::same_bytes(scan::first_bytes(rest, p), word) {
            return i;
        }
        at += p + 1;
        i += 1;
    }
    i
}

// The lesser of two numbers.
pub fn least(a: usize, b: usize) -> usize
    ensures { (result ≡ cond (ltb a b) a b) × (result ≤ b) }
{
    a.min(b)
}
