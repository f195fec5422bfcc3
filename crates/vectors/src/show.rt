// Bytes, printed so that a line shows them.
ghost use Rattle.std.specs.Prelude.{◌≡◌, length};

// A byte, or \x and its digits where it does not print.
fn byte(b: u8) {
    match b {
        b' '..=b'~' => {
            io::write_all(1, &[b]);
        }
        _ => {
            io::write_all(1, b"\\x");
            io::print_hex(1, u64::from(b), 2);
        }
    }
}

// Prints bytes of any value, and tells how many it has shown: the count is the place, so that what is promised of it leaves no byte out.
pub fn bytes(s: &[u8]) -> usize
    ensures { result ≡ length s.now }
{
    let mut i: usize = 0;
    while i < s.len() {
        byte(s[i]);
        i += 1;
    }
    i
}
