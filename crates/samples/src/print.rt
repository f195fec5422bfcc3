// Answers that only these vectors have, printed.
use days::calendar::Day;
use fields::number::Number;
use texts::scan;
use vectors::show;

// A name and a number.
pub fn named(name: &[u8], n: u64) {
    io::write_all(1, name);
    io::print_decimal(1, n);
}

// A fault and its number.
pub fn fault(code: u64) {
    named(b"fault ", code);
}

// The value of a digit field, or its fault.
pub fn value_or_fault(d: Option<u64>, code: u64) {
    match d {
        Some(v) => {
            io::print_decimal(1, v);
        }
        None => fault(code),
    }
}

// What a vector gives that names no action.
pub fn unknown_action() {
    io::write_all(1, b"unknown action");
}

// What a vector itself gives in another form than its word asks.
pub fn malformed() {
    io::write_all(1, b"malformed");
}

// Year, month and day.
pub fn day(d: Day) {
    io::print_decimal(1, d.year as u64);
    named(b" ", d.month as u64);
    named(b" ", d.day as u64);
}

// The bytes of an account's number.
pub fn account(x: Number) {
    show::bytes(scan::first_bytes(&x.bytes, x.len));
}
