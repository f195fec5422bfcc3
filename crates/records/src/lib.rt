#![tactic(auto)]
// The payment table as a lent slice of records: they are copied into rows, the call is made on these, and they are copied back.
ghost use Rattle.std.specs.Prelude.{◌≡◌, ◌≤◌, length};
ghost use Rattle.lists.specs.Rows.{SameLoan};
ghost use Rattle.table.specs.Lent.{lent, rows_in, rows_seen};
ghost use Rattle.admission.specs.Delivery.{delivery_of};
ghost use Rattle.calls.specs.Calls.{call_on};
ghost use Rattle.records.specs.Records.{called_of, call_records};
ghost use Rattle.records.specs.Copying.{rows_in as placed, filled, restored, on_part, Sized};

use calls::Call;
use ledger::Reply;
use lists::PLACES_MOST;
use lists::rows::Rows;
use table::rows::{Table, TableView};
use table::{Gate, Record, rows};

// The records into the rows.
fn to_rows(records: &[Record], table: &mut Table<'_>)
    requires { Sized (rows_in table.old) }
    ensures value { rows_in table.new ≡ filled records.now (placed (length records.now)) (rows_in table.old) }
    ensures sized { Sized (rows_in table.new) }
    ensures same_loan { SameLoan table.old table.new }
{
    for i in 0..records.len().min(PLACES_MOST) {
        rows::store(table, i, records[i]);
    }
}

// The rows into the records.
fn from_rows(records: &mut [Record], table: TableView<'_>)
    requires { Sized (rows_seen table) }
    ensures { records.new ≡ restored records.old (placed (length records.old)) (rows_seen table.entry) }
{
    for i in 0..records.len().min(PLACES_MOST) {
        records[i] = rows::load(table, i);
    }
}

// A call on the table that three slices are.
fn call_slices(
    nums: &mut [[u64; 6]],
    numbers: &mut [[u8; 30]],
    dates: &mut [[[u8; 19]; 3]],
    gate: Gate,
    call: Call,
    text: &[u8],
    out: &mut [u8],
) -> Reply
    ensures { delivery_of result (lent nums.new numbers.new dates.new) out.new ≡ call_on gate call text.now out.old (lent nums.old numbers.old dates.old) }
{
    let mut table = Rows {
        nums,
        numbers,
        dates,
    };
    calls::call_on(&mut table, gate, call, text, out)
}

// A call on the first `len` places of the rows; more than they have are refused.
// Three slices, and not a table: tried, the borrow checker covers no part of a slice in a field, and of parts in a new `Rows` the proof does not learn what became of them.
#[tactic(auto, using(crate::proofs::PartLaws::part_laws))]
fn call_part(
    nums: &mut [[u64; 6]],
    numbers: &mut [[u8; 30]],
    dates: &mut [[[u8; 19]; 3]],
    len: usize,
    gate: Gate,
    call: Call,
    text: &[u8],
    out: &mut [u8],
) -> Reply
    requires { Sized (lent nums.old numbers.old dates.old) }
    ensures value { delivery_of result (lent nums.new numbers.new dates.new) out.new
        ≡ on_part len gate out.old (call_on gate call text.now out.old) (lent nums.old numbers.old dates.old) }
    ensures sized { Sized (lent nums.new numbers.new dates.new) }
{
    if PLACES_MOST < len {
        return Reply {
            code: 68,
            gate,
            size: 0,
        };
    }
    call_slices(
        &mut nums[..len],
        &mut numbers[..len],
        &mut dates[..len],
        gate,
        call,
        text,
        out,
    )
}

// The same on a table.
fn call_rows(
    table: &mut Table<'_>,
    len: usize,
    gate: Gate,
    call: Call,
    text: &[u8],
    out: &mut [u8],
) -> Reply
    requires { Sized (rows_in table.old) }
    ensures value { delivery_of result (rows_in table.new) out.new
        ≡ on_part len gate out.old (call_on gate call text.now out.old) (rows_in table.old) }
    ensures sized { Sized (rows_in table.new) }
    ensures same_loan { SameLoan table.old table.new }
{
    call_part(
        table.nums,
        table.numbers,
        table.dates,
        len,
        gate,
        call,
        text,
        out,
    )
}

// A call on the gate over a lent slice of records.
pub fn call_records(
    records: &mut [Record],
    gate: Gate,
    call: Call,
    text: &[u8],
    out: &mut [u8],
) -> Reply
    ensures { called_of result records.new out.new ≡ call_records gate records.old call text.now out.old }
{
    let mut nums = [[0u64; 6]; 4096];
    let mut numbers = [[0u8; 30]; 4096];
    let mut dates = [[[0u8; 19]; 3]; 4096];
    let mut table = Rows {
        nums: &mut nums,
        numbers: &mut numbers,
        dates: &mut dates,
    };
    to_rows(records, &mut table);
    let r = call_rows(&mut table, records.len(), gate, call, text, out);
    from_rows(records, table.view());
    r
}
