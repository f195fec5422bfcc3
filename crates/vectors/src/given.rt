// What a line gives, each read up to the first space: it may be out of range.
ghost use Rattle.std.specs.Prelude.{◌≡◌};
ghost use Rattle.vectors.specs.Given.{value_given, day_given, number_given, date_given, no_accounts, zeroed};

use days::calendar;
use days::calendar::Day;
use fields::number::Number;
use table::{Account, Gate};
use texts::{digits, out, scan};

// The value of up to twenty digits; 0 where there are none.
#[tactic(auto, unfolding(crate::specs::Given::value_given))]
pub fn value(s: &[u8]) -> u64
    ensures { result ≡ value_given s.now }
{
    digits::read_digits(scan::before_byte(s, b' '), 20).unwrap_or(0)
}

// A day, or zeros where it is no date.
#[tactic(auto, unfolding(crate::specs::Given::day_given))]
pub fn day(s: &[u8]) -> Day
    ensures { result ≡ day_given s.now }
{
    calendar::read_day(scan::before_byte(s, b' ')).unwrap_or(Day {
        year: 0,
        month: 0,
        day: 0,
    })
}

// The first N bytes, then zeros.
fn zeroed<const N: usize>(s: &[u8]) -> [u8; N]
    ensures { result ≡ zeroed N s.now }
{
    let mut bytes = [0; N];
    out::put_bytes(scan::first_bytes(s, N), &mut bytes, 0);
    bytes
}

// A number of these bytes, of which thirty at most are held.
#[tactic(auto, unfolding(crate::specs::Given::number_given))]
pub fn number(s: &[u8]) -> Number
    ensures { result ≡ number_given s.now }
{
    let field = scan::before_byte(s, b' ');
    Number {
        bytes: zeroed(field),
        len: field.len(),
    }
}

// Nineteen bytes: the first of these, then zeros.
#[tactic(auto, unfolding(crate::specs::Given::date_given))]
pub fn date(s: &[u8]) -> [u8; 19]
    ensures { result ≡ date_given s.now }
{
    zeroed(scan::before_byte(s, b' '))
}

// A gate without accounts, closed on a day.
#[tactic(auto, unfolding(crate::specs::Given::no_accounts))]
pub fn no_gate(closed: Day) -> Gate
    ensures { result ≡ no_accounts closed }
{
    let none = Account {
        number: Number {
            bytes: [0; 30],
            len: 0,
        },
        kind: 0,
        balance: 0,
    };
    Gate {
        accounts: [none; 256],
        count: 0,
        closed,
        used: 0,
    }
}
