// Days of the Gregorian calendar from 2000 to 2099.
ghost use Rattle.std.specs.Prelude.{◌≡◌};
ghost use Rattle.days.specs.Calendar.{two_digits, day_with, leap_year, days_in, is_date, is_day, day_of, next_day, day_before, same_day, on_day, day_part, day_read};

// The first two digits of a year.
const CENTURY: u8 = 20;

#[repr(C)]
#[derive(Clone, Copy, PartialEq, Eq, PartialOrd, Ord)]
pub struct Day {
    pub year: u16,
    pub month: u8,
    pub day: u8,
}

// Whether a year has a 29th of February.
#[tactic(auto, unfolding(crate::specs::Calendar::leap_year))]
fn is_leap(year: u16) -> bool
    ensures { result ≡ leap_year year }
{
    year % 4 == 0 && (year % 100 != 0 || year % 400 == 0)
}

// How many days a month has.
#[tactic(auto, using(crate::proofs::CalendarLaws::month_laws))]
fn days_in(year: u16, month: u8) -> u8
    ensures { result ≡ days_in year month }
{
    match month {
        2 => { if is_leap(year) { 29 } else { 28 } }
        4 | 6 | 9 | 11 => 30,
        _ => 31,
    }
}

// Whether these numbers are a date of 2000 to 2099.
#[tactic(auto, unfolding(crate::specs::Calendar::is_date))]
fn is_date(year: u16, month: u8, day: u8) -> bool
    ensures { result ≡ is_date year month day }
{
    (2000..=2099).contains(&year)
        && (1..=12).contains(&month)
        && (1..=days_in(year, month)).contains(&day)
}

// The day with these numbers.
#[tactic(auto, unfolding(crate::specs::Calendar::day_of))]
fn day_of(year: u16, month: u8, day: u8) -> Option<Day>
    ensures { result ≡ day_of year month day }
{
    if is_date(year, month, day) {
        Some(Day { year, month, day })
    } else {
        None
    }
}

impl Day {
    // Whether the numbers of a day are a date.
    pub fn is_valid(self) -> bool
        ensures { result ≡ is_day self }
    {
        is_date(self.year, self.month, self.day)
    }

    // The following day, where there is one.
    #[tactic(auto, using(crate::proofs::CalendarLaws::next_laws))]
    pub fn next(self) -> Option<Day>
        ensures { result ≡ next_day self }
    {
        if !self.is_valid() {
            return None;
        }
        if self.day < days_in(self.year, self.month) {
            day_of(self.year, self.month, self.day + 1)
        } else if self.month < 12 {
            day_of(self.year, self.month + 1, 1)
        } else {
            day_of(self.year + 1, 1, 1)
        }
    }

    // Whether this day comes before another.
    #[tactic(auto, unfolding(crate::specs::Calendar::day_before))]
    pub fn before(self, other: Day) -> bool
        ensures { result ≡ day_before self other }
    {
        self < other
    }

    // Whether two days are one.
    #[tactic(auto, unfolding(crate::specs::Calendar::same_day))]
    pub fn same(self, other: Day) -> bool
        ensures { result ≡ same_day self other }
    {
        self == other
    }

    // Whether two dashes and four pairs of digits are this day: no other day is made to be compared.
    #[tactic(auto, using(crate::proofs::CalendarLaws::with_laws))]
    pub fn is_with(self, dash: u8, other: u8, century: u8, y: u8, month: u8, day: u8) -> bool
        ensures { result ≡ on_day self (day_with dash other century y month day) }
    {
        dash == b'-'
            && other == b'-'
            && century == CENTURY
            && 2000 + u16::from(y) == self.year
            && month == self.month
            && day == self.day
            && self.is_valid()
    }

    // Whether this day comes right after another.
    pub fn follows(self, last: Day) -> bool
        ensures { result ≡ on_day self (next_day last) }
    {
        last.next() == Some(self)
    }
}

// The value of two digits, or 100 where one is none: the test of the range, which each caller makes, then fails too.
#[tactic(auto, unfolding(crate::specs::Calendar::two_digits))]
pub fn two(a: u8, b: u8) -> u8
    ensures { result ≡ two_digits a b }
{
    if a.is_ascii_digit() && b.is_ascii_digit() {
        (a - b'0') * 10 + (b - b'0')
    } else {
        100
    }
}

// The day of two dashes and four pairs of digits: its parts as numbers, so that no text is copied for it.
pub fn day_with(dash: u8, other: u8, century: u8, y: u8, month: u8, day: u8) -> Option<Day>
    ensures { result ≡ day_with dash other century y month day }
{
    if dash == b'-' && other == b'-' && century == CENTURY && y <= 99 {
        day_of(2000 + u16::from(y), month, day)
    } else {
        None
    }
}

// The day that the first ten bytes are.
#[tactic(auto, using(crate::proofs::CalendarLaws::part_laws))]
fn day_part(s: &[u8]) -> Option<Day>
    ensures { result ≡ day_part s.now }
{
    if s.len() < 10 {
        return None;
    }
    let century = two(s[0], s[1]);
    let y = two(s[2], s[3]);
    day_with(s[4], s[7], century, y, two(s[5], s[6]), two(s[8], s[9]))
}

// A day that stands alone, YYYY-MM-DD.
#[tactic(auto, unfolding(crate::specs::Calendar::day_read))]
pub fn read_day(s: &[u8]) -> Option<Day>
    ensures { result ≡ day_read s.now }
{
    if s.len() == 10 { day_part(s) } else { None }
}
