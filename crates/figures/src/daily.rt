// What P prints of a day.
ghost use Rattle.std.specs.Prelude.{[], ◌∷◌, ◌+◌, ◌*◌, ◌≤◌, length};
ghost use Rattle.table.specs.Table.{records_of, done};
ghost use Rattle.table.specs.Lent.{rows_seen};
ghost use Rattle.table.specs.Daily.{records_on};
ghost use Rattle.figures.specs.Daily.{record_text, records_text, sum_text, day_text};
ghost use Rattle.figures.specs.Listing.{Payable, Put, Summed};

use crate::print;
use days::calendar::Day;
use table::rows::TableView;
use table::{Record, daily, rows};
use texts::{digits, out};

// How many records there are, and their kopecks.
#[derive(Clone, Copy)]
struct Sum {
    count: u64,
    total: u64,
}

// Writes a record's line at the cursor.
fn write_record(r: Record, dst: &mut [u8], at: usize) -> usize
    requires { at + 64 ≤ length dst.old }
    ensures { Put dst.old at (record_text r) result dst.new }
{
    let a = digits::write_digits(r.receipt, dst, at);
    let b = print::write_led(b' ', r.amount, dst, a);
    let c = print::write_led(b' ', r.authcode, dst, b);
    out::put_bytes(b"\n", dst, c)
}

// Writes it where the record is done on the day.
fn write_done(r: Record, day: Day, dst: &mut [u8], at: usize) -> usize
    requires { at + 64 ≤ length dst.old }
    ensures { Put dst.old at (records_text (records_on day done (r ∷ []))) result dst.new }
{
    if daily::stands_on(r, day, table::DONE) {
        write_record(r, dst, at)
    } else {
        at
    }
}

// Writes the lines of all that are done on the day, in table order.
fn write_records(table: TableView<'_>, used: usize, day: Day, dst: &mut [u8], at: usize) -> usize
    requires { Payable (rows_seen table) used × (at + 64 * used ≤ length dst.old) }
    ensures { Put dst.old at (records_text (records_on day done (records_of (rows_seen table.entry) used))) result dst.new }
{
    let mut cursor = at;
    for i in 0..used {
        let r = rows::load(table, i);
        cursor = write_done(r, day, dst, cursor);
    }
    cursor
}

// Counts and sums the records that stand in a state on the day.
fn sum_on(table: TableView<'_>, used: usize, day: Day, state: u64) -> Sum
    requires { Payable (rows_seen table) used }
    ensures { Summed day state (records_of (rows_seen table.entry) used) result.count result.total }
{
    let mut sum = Sum { count: 0, total: 0 };
    for place in 0..used {
        let r = rows::load(table, place);
        if daily::stands_on(r, day, state) {
            sum.count += 1;
            sum.total += r.amount;
        }
    }
    sum
}

// Writes the line of such a sum at the cursor.
fn write_sum(s: Sum, dst: &mut [u8], at: usize) -> usize
    requires { at + 64 ≤ length dst.old }
    ensures { Put dst.old at (sum_text s.count s.total) result dst.new }
{
    let a = digits::write_digits(s.count, dst, at);
    let b = print::write_led(b' ', s.total, dst, a);
    out::put_bytes(b"\n", dst, b)
}

// Writes what P prints of a day at the cursor.
pub fn write_day(table: TableView<'_>, used: usize, day: Day, dst: &mut [u8], at: usize) -> usize
    requires { Payable (rows_seen table) used × (at + 64 * (used + 2) ≤ length dst.old) }
    ensures { Put dst.old at (day_text day (records_of (rows_seen table.entry) used)) result dst.new }
{
    let a = write_records(table, used, day, dst, at);
    let paid = sum_on(table, used, day, table::DONE);
    let b = write_sum(paid, dst, a);
    let revoked = sum_on(table, used, day, table::CANCELLED);
    write_sum(revoked, dst, b)
}
