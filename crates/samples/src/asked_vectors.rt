// Requests, written.
use crate::print;
use message::request::Asked;
use parameters::action;
use request_writer::write;
use texts::{digits, scan};
use vectors::given;

// A request from its action's word and its fields, split by spaces: number, type, kopecks, receipt, date and reason.
fn asked_of(s: &[u8]) -> Option<Asked> {
    let action = action::read_action(scan::before_byte(s, b' '))?;
    let number = scan::after_byte(s, b' ');
    let kind = scan::after_byte(number, b' ');
    let amount = scan::after_byte(kind, b' ');
    let receipt = scan::after_byte(amount, b' ');
    let rest = scan::after_byte(receipt, b' ');
    let date = given::date(rest);
    Some(Asked {
        action,
        number: given::number(number),
        kind: given::value(kind),
        amount: given::value(amount),
        receipt: given::value(receipt),
        date,
        reason: given::value(scan::after_byte(rest, b' ')),
    })
}

// The text of a request.
pub fn write_request(s: &[u8]) {
    let Some(q) = asked_of(s) else {
        print::unknown_action();
        return;
    };
    let mut space = [0u8; 512];
    let n = write::write_request(q, &mut space, 0);
    if n == 0 {
        io::write_all(1, b"refused");
    } else {
        io::write_all(1, scan::first_bytes(&space, n));
    }
}

// The cursor that is handed back, from a cursor, a buffer's size and a request.
pub fn write_request_at(s: &[u8]) {
    let rest = scan::after_byte(s, b' ');
    let Some(size @ 0..=512) = digits::read_digits(scan::before_byte(rest, b' '), 3) else {
        print::malformed();
        return;
    };
    let Some(q) = asked_of(scan::after_byte(rest, b' ')) else {
        print::unknown_action();
        return;
    };
    let mut space = [0u8; 512];
    let dst = &mut space[..size as usize];
    io::print_decimal(
        1,
        write::write_request(q, dst, given::value(s) as usize) as u64,
    );
}
