// One line of a registry: number, type, date, amount and receipt, split by 09.
ghost use Rattle.std.specs.Prelude.{◌≡◌, true};
ghost use Rattle.texts.specs.Lists.{written, cursor_after};
ghost use Rattle.lines.specs.LineText.{EndsDate, PaidIn, FoundIn, row_of9, account_part};
ghost use Rattle.lines.specs.Line.{is_line, line_bytes, line_text};

use dates::date;
use days::calendar::Day;
use fields::number::Number;
use fields::{amount, codes, number};
use texts::{digits, out, scan};

#[derive(Clone, Copy)]
pub struct Line {
    pub number: Number,
    pub kind: u64,
    pub date: [u8; 19],
    pub amount: u64,
    pub receipt: u64,
}

// A line in its text: its number is the first `len` bytes, its date the nineteen from `date` on. Neither is copied here,
// so that each is copied once, to where it is held.
#[derive(Clone, Copy)]
pub struct Found {
    pub len: usize,
    pub kind: u64,
    pub date: usize,
    pub amount: u64,
    pub receipt: u64,
}

// Amount and receipt of a line.
#[derive(Clone, Copy)]
struct Paid {
    amount: u64,
    receipt: u64,
}

// Where the date that a text begins with ends: it has nineteen bytes, so a 09 behind these is looked for first.
fn date_end(s: &[u8]) -> usize
    ensures { EndsDate s.now result }
{
    if 20 <= s.len() && s[19] == b'\t' {
        19
    } else {
        scan::find_byte(s, b'\t')
    }
}

// Amount and receipt, from the text of date, amount and receipt, the date on the day.
fn read_paid(day: Day, s: &[u8]) -> Option<Paid>
    ensures { PaidIn day s.now result }
{
    let p = date_end(s);
    if !date::is_text_on(day, scan::first_bytes(s, p)) {
        return None;
    }
    let s1 = scan::bytes_from(s, p + 1);
    let q = scan::find_byte(s1, b'\t');
    let amount = amount::read_amount(scan::first_bytes(s1, q))?;
    let receipt = codes::read_receipt(scan::bytes_from(s1, q + 1))?;
    Some(Paid { amount, receipt })
}

// Where a line of the day, without its end, has its fields.
pub fn find_line(day: Day, s: &[u8]) -> Option<Found>
    ensures { FoundIn day s.now result }
{
    let p = scan::find_byte(s, b'\t');
    if !number::is_text(scan::first_bytes(s, p)) {
        return None;
    }
    let s1 = scan::bytes_from(s, p + 1);
    let q = scan::find_byte(s1, b'\t');
    let kind = codes::read_kind(scan::first_bytes(s1, q))?;
    let paid = read_paid(day, scan::bytes_from(s1, q + 1))?;
    Some(Found {
        len: p,
        kind,
        date: p + q + 2,
        amount: paid.amount,
        receipt: paid.receipt,
    })
}

impl Line {
    // Whether every field is well formed.
    #[tactic(auto, unfolding(crate::specs::Line::is_line))]
    pub fn is_valid(self) -> bool
        ensures { result ≡ is_line self }
    {
        self.number.is_valid()
            && codes::is_kind(self.kind)
            && date::is_written(self.date)
            && amount::is_amount(self.amount)
            && codes::is_receipt(self.receipt)
    }

    // Writes number, type and date into a row of 09, in which the separators stand already.
    pub(crate) fn put_account(self, row: &mut [u8]) -> usize
        requires { (is_line self ≡ true) × (row.old ≡ row_of9) }
        ensures { (result ≡ cursor_after row_of9 0 (account_part self)) × (row.new ≡ written row_of9 0 (account_part self)) }
    {
        let a = self.number.write(row, 0);
        let b = digits::write_digits(self.kind, row, a + 1);
        date::write_date(self.date, row, b + 1)
    }

    // Writes amount, receipt and the line's end behind them.
    pub(crate) fn put_payment(self, row: &mut [u8], at: usize) -> usize
        requires { (is_line self ≡ true) × (at ≡ cursor_after row_of9 0 (account_part self)) × (row.old ≡ written row_of9 0 (account_part self)) }
        ensures { (result ≡ cursor_after row_of9 0 (line_bytes self)) × (row.new ≡ written row_of9 0 (line_bytes self)) }
    {
        let a = amount::write_amount(self.amount, row, at + 1);
        let b = digits::write_digits(self.receipt, row, a + 1);
        out::put_bytes(b"\r\n", row, b)
    }

    // Writes a line that is known to be well formed, and its end, at the cursor, where it has room.
    pub fn put(self, dst: &mut [u8], at: usize) -> usize
        requires { is_line self ≡ true }
        ensures { (result ≡ cursor_after dst.old at (line_text self)) × (dst.new ≡ written dst.old at (line_text self)) }
    {
        let mut row = [9u8; 96];
        let a = self.put_account(&mut row);
        let n = self.put_payment(&mut row, a);
        out::put_bytes(scan::first_bytes(&row, n), dst, at)
    }

    // Writes a line and its end at the cursor, where it is well formed and has room.
    pub fn write(self, dst: &mut [u8], at: usize) -> usize
        ensures { (result ≡ cursor_after dst.old at (line_text self)) × (dst.new ≡ written dst.old at (line_text self)) }
    {
        if self.is_valid() {
            self.put(dst, at)
        } else {
            at
        }
    }
}
