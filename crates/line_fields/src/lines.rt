// The lines of a text, one after the other.
ghost use Rattle.std.specs.Prelude.{◌≡◌, ◌≤◌, ◌<◌, ◌+◌, length};
ghost use Rattle.line_fields.specs.LineFields.{line_at};

use texts::scan;

// The line that begins at a place.
pub fn line_at(s: &[u8], at: usize) -> &[u8]
    ensures { result.now ≡ line_at at s.now }
{
    scan::before_byte(scan::bytes_from(s, at), b'\n')
}

// Where the next line begins.
pub fn next_line(s: &[u8], at: usize) -> usize
    requires { at < length s.now }
    ensures { (result ≡ at + (length (line_at at s.now) + 1)) × (at < result) × (result ≤ length s.now + 1) }
{
    at + line_at(s, at).len() + 1
}
