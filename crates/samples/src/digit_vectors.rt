// Digit fields.
use crate::print;
use texts::digits;

// The value of up to twenty digits.
pub fn digits20(s: &[u8]) {
    match digits::read_digits(s, 20) {
        Some(v) => {
            io::print_decimal(1, v);
        }
        None => print::malformed(),
    }
}
