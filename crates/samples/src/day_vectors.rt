// Days and written dates.
use crate::print;
use dates::date;
use days::calendar;
use days::calendar::Day;
use texts::scan;

// A day, or the words for none.
fn show_day(r: Option<Day>, none: &[u8]) {
    match r {
        Some(d) => print::day(d),
        None => {
            io::write_all(1, none);
        }
    }
}

// A written date, written back, and its day.
pub fn written_date(s: &[u8]) {
    let Some(d) = date::read_date(s) else {
        print::fault(5);
        return;
    };
    let mut space = [0u8; 19];
    let n = date::write_date(d, &mut space, 0);
    io::write_all(1, scan::first_bytes(&space, n));
    io::write_all(1, b" ");
    show_day(date::day_of_date(d), b"no date");
}

// The day that a text is.
pub fn day(s: &[u8]) {
    show_day(calendar::read_day(s), b"no date");
}

// The day after one.
pub fn next(s: &[u8]) {
    let Some(d) = calendar::read_day(s) else {
        io::write_all(1, b"no date");
        return;
    };
    show_day(d.next(), b"none");
}

// Whether the first of two days, split by a space, comes before the second.
pub fn before(s: &[u8]) {
    let first = calendar::read_day(scan::before_byte(s, b' '));
    let second = calendar::read_day(scan::after_byte(s, b' '));
    let (Some(a), Some(b)) = (first, second) else {
        io::write_all(1, b"no date");
        return;
    };
    if a.before(b) {
        io::write_all(1, b"yes");
    } else {
        io::write_all(1, b"no");
    }
}
