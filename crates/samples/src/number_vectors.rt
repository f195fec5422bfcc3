// Numbers of accounts.
use crate::print;
use fields::number::read_number;
use texts::scan;
use vectors::show;

// The length, and the number written back.
pub fn number(s: &[u8]) {
    let Some(x) = read_number(s) else {
        print::fault(2);
        return;
    };
    let mut space = [0u8; 30];
    let n = x.write(&mut space, 0);
    io::print_decimal(1, x.len as u64);
    io::write_all(1, b" bytes ");
    show::bytes(scan::first_bytes(&space, n));
}

// Whether two numbers, split by a space, are equal.
pub fn same(s: &[u8]) {
    let first = read_number(scan::before_byte(s, b' '));
    let second = read_number(scan::after_byte(s, b' '));
    let (Some(x), Some(y)) = (first, second) else {
        print::fault(2);
        return;
    };
    if x.same(y) {
        io::write_all(1, b"same");
    } else {
        io::write_all(1, b"other");
    }
}
