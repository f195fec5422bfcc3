// Writers into a lent buffer.
use crate::print;
use texts::{digits, out, scan};

// The value in s, as `write` writes it at a cursor.
pub fn write_value<F: FnOnce(u64, &mut [u8], usize) -> usize>(s: &[u8], write: F)
    requires { F.IsAlwaysCallable write }
{
    let Some(v) = digits::read_digits(s, 20) else {
        print::malformed();
        return;
    };
    let mut space = [0u8; 64];
    let n = write(v, &mut space, 0);
    io::write_all(1, scan::first_bytes(&space, n));
}

// Writes the text behind a cursor and a size into so many points.
pub fn put(s: &[u8]) {
    let rest = scan::after_byte(s, b' ');
    let cursor = digits::read_digits(scan::before_byte(s, b' '), 20);
    let size = digits::read_digits(scan::before_byte(rest, b' '), 2);
    let (Some(at), Some(n @ 0..=64)) = (cursor, size) else {
        print::malformed();
        return;
    };
    let mut space = [b'.'; 64];
    put_into(
        scan::after_byte(rest, b' '),
        &mut space[..n as usize],
        at as usize,
    );
}

// Prints the cursor that is handed back, and the whole buffer.
fn put_into(src: &[u8], dst: &mut [u8], at: usize) {
    io::print_decimal(1, out::put_bytes(src, dst, at) as u64);
    io::write_all(1, b" ");
    io::write_all(1, dst);
}
