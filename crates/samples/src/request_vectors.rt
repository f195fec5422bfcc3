// Requests, read.
use crate::print;
use fields::number::Number;
use message::request::{Asked, Fault, Refusal, read_request};
use parameters::action;
use payments::Action;
use texts::{digits, out, scan};

// What a request asks, or its fault.
pub fn request(s: &[u8]) {
    show_read(read_request(s));
}

// The same of a text with `&` behind it, up to so many bytes in all.
pub fn long_request(s: &[u8]) {
    let Some(n @ 0..=4096) = digits::read_digits(scan::before_byte(s, b' '), 4) else {
        print::malformed();
        return;
    };
    let mut space = [b'&'; 4096];
    out::put_bytes(scan::after_byte(s, b' '), &mut space, 0);
    request(scan::first_bytes(&space, n as usize));
}

fn show_read(r: Result<Asked, Refusal>) {
    match r {
        Ok(q) => show_asked(q),
        Err(x) => show_refusal(x),
    }
}

// A fault, and the action's word where one is known.
fn show_refusal(x: Refusal) {
    print::fault(x.fault.into());
    if !matches!(x.fault, Fault::NoAction | Fault::Malformed) {
        io::write_all(1, b" ");
        show_word(x.action);
    }
}

fn show_word(a: Action) {
    let word: &[u8] = match a {
        Action::Check => b"check",
        Action::Payment => b"payment",
        Action::Status => b"status",
        Action::Cancel => b"cancel",
    };
    io::write_all(1, word);
}

// The action's word, and every field that it has.
fn show_asked(q: Asked) {
    let a = q.action;
    show_word(a);
    if action::has_account(a) {
        show_account(q.number, q.kind, q.amount);
    }
    if action::has_receipt(a) {
        print::named(b" receipt=", q.receipt);
    }
    if action::has_date(a) {
        io::write_all(1, b" date=");
        io::write_all(1, &q.date);
    }
    if action::has_reason(a) {
        print::named(b" mes=", q.reason);
    }
}

fn show_account(number: Number, kind: u64, amount: u64) {
    io::write_all(1, b" number=");
    print::account(number);
    print::named(b" type=", kind);
    print::named(b" amount=", amount);
}
