// The lines of a registry, read from its text once and held.
ghost use Rattle.std.specs.Prelude.{◌≡◌, ◌≤◌, IfOk, MatchResult, length, take};
ghost use Rattle.lines.specs.LineText.{line_in, Stands};
ghost use Rattle.registry.specs.Registry.{fault_code, registry_fault, registry_lines};
ghost use Rattle.line_rows.specs.Lines.{Read};

use dates::date;
use days::calendar::Day;
use fields::number;
use fields::number::Number;
use lines::line;
use lines::line::{Found, Line};
use registry::text;
use registry::text::Fault;

// A place for each of the 512 lines that a registry may have, none read yet.
pub fn no_lines() -> [Line; 512]
    ensures { 512 ≡ length result }
{
    let number = Number {
        bytes: [0u8; 30],
        len: 0,
    };
    let none = Line {
        number,
        kind: 0,
        date: [0u8; 19],
        amount: 0,
        receipt: 0,
    };
    [none; 512]
}

// The line that was found in a text.
fn line_in(s: &[u8], x: Found) -> Line
    requires { Stands s.now x }
    ensures { result ≡ line_in s.now x }
{
    let date = x.date;
    Line {
        number: number::number_of(&s[..x.len]),
        kind: x.kind,
        date: date::nineteen(&s[date..date + 19]),
        amount: x.amount,
        receipt: x.receipt,
    }
}

// Reads the registry of a day in one pass, and tells how many lines it has; these are held where it has no fault.
pub fn read_registry(day: Day, s: &[u8], lines: &mut [Line]) -> Result<usize, Fault>
    requires { 512 ≡ length lines.old }
    ensures fault_value { MatchResult result (λ n. registry_fault day s.now ≡ 0) (λ fault. registry_fault day s.now ≡ fault_code fault) }
    ensures lines_value { IfOk result (λ n. take n lines.new ≡ registry_lines s.now) }
    ensures read { IfOk result (λ n. Read (take n lines.new)) }
    ensures within { IfOk result (λ n. n ≤ length lines.new) }
{
    let mut rose = true;
    let mut last: u64 = 0;
    let mut n: usize = 0;
    let mut at: usize = 0;
    while at < s.len() {
        if text::LINES_MOST <= n {
            return Err(text::fault_behind(s, at, n));
        }
        let e = text::end_of_line(s, at);
        if s.len() <= e {
            return Err(text::fault_behind(s, at, n));
        }
        let own = text::line_to(s, at, e);
        let Some(x) = line::find_line(day, own) else {
            return Err(text::fault_behind(s, at, n));
        };
        lines[n] = line_in(own, x);
        rose = text::still_rise(rose, last, x.receipt);
        last = x.receipt;
        n += 1;
        at = e + 2;
    }
    if rose { Ok(n) } else { Err(Fault::Unordered) }
}
