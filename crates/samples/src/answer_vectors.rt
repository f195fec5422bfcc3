// Answers.
use crate::print;
use answer_reader::read;
use answers::write;
use parameters::action;
use payments::{Action, Answer};
use texts::{digits, out, scan};
use vectors::given;

// The answer to an action.
pub fn answer(s: &[u8]) {
    let Some(a) = action::read_action(scan::before_byte(s, b' ')) else {
        print::unknown_action();
        return;
    };
    show_read(read::read_answer(a, scan::after_byte(s, b' ')));
}

// A check's answer with a message of so many bytes; 78 bytes stand before it.
pub fn long_answer(s: &[u8]) {
    let Some(n @ 0..=600) = digits::read_digits(s, 3) else {
        print::malformed();
        return;
    };
    let head =
        b"<?xml version=\"1.0\" encoding=\"windows-1251\"?><response><code>0</code><message>";
    let mut space = [b'm'; 1024];
    out::put_bytes(head, &mut space, 0);
    let e = out::put_bytes(b"</message></response>", &mut space, 78 + n as usize);
    show_read(read::read_answer(Action::Check, scan::first_bytes(&space, e)));
}

// Code, authcode and date, where it reads as an answer.
fn show_read(r: Option<Answer>) {
    let Some(x) = r else {
        io::write_all(1, b"unreadable");
        return;
    };
    print::named(b"code=", x.code);
    if x.authorized {
        print::named(b" authcode=", x.authcode);
    }
    if x.dated {
        io::write_all(1, b" date=");
        io::write_all(1, &x.date);
    }
}

// The bytes of an answer from code, authcode and date; `-` gives none.
pub fn write_answer(s: &[u8]) {
    let rest = scan::after_byte(s, b' ');
    let last = scan::after_byte(rest, b' ');
    let date = given::date(last);
    let x = Answer {
        code: given::value(s),
        authorized: scan::before_byte(rest, b' ') != b"-".as_slice(),
        authcode: given::value(rest),
        dated: last != b"-".as_slice(),
        date,
    };
    let mut space = [0u8; 512];
    let n = write::write_answer(x, &mut space, 0);
    io::write_all(1, scan::first_bytes(&space, n));
}
