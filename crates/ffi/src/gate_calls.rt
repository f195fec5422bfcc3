// The calls of the gate.
ghost use Rattle.std.specs.Prelude.{◌≡◌};
ghost use Rattle.table.specs.Lent.{lent};
ghost use Rattle.opening.specs.Opening.{open_account, draw_funds};
ghost use Rattle.admission.specs.Delivery.{delivery_of};
ghost use Rattle.gate.specs.Deliver.{deliver};
ghost use Rattle.settlement.specs.Settle.{settle};

use days::calendar::Day;
use fields::number::Number;
use gate::deliver;
use ledger::Reply;
use lists::rows::{Rows, RowsView};
use settlement::settle;
use table::Gate;

// Opens an account.
#[unsafe(no_mangle)]
pub extern "C" fn roosteryore_open_account(
    nums: &[[u64; 6]],
    numbers: &[[u8; 30]],
    dates: &[[[u8; 19]; 3]],
    gate: Gate,
    number: Number,
    kind: u64,
) -> Reply
    ensures { result ≡ open_account gate (lent nums.now numbers.now dates.now) number kind }
{
    let table = RowsView {
        nums,
        numbers,
        dates,
    };
    opening::open_account(table, gate, number, kind)
}

// Draws kopecks from an account.
#[unsafe(no_mangle)]
pub extern "C" fn roosteryore_draw_funds(
    nums: &[[u64; 6]],
    numbers: &[[u8; 30]],
    dates: &[[[u8; 19]; 3]],
    gate: Gate,
    number: Number,
    kind: u64,
    kopecks: u64,
) -> Reply
    ensures { result ≡ draw_funds gate (lent nums.now numbers.now dates.now) number kind kopecks }
{
    let table = RowsView {
        nums,
        numbers,
        dates,
    };
    opening::draw_funds(table, gate, number, kind, kopecks)
}

// Delivers a request; its answer is in the buffer.
#[unsafe(no_mangle)]
pub extern "C" fn roosteryore_deliver(
    nums: &mut [[u64; 6]],
    numbers: &mut [[u8; 30]],
    dates: &mut [[[u8; 19]; 3]],
    gate: Gate,
    clock: &[u8; 19],
    params: &[u8],
    out: &mut [u8],
) -> Reply
    ensures { delivery_of result (lent nums.new numbers.new dates.new) out.new ≡ deliver gate (lent nums.old numbers.old dates.old) clock.now params.now out.old }
{
    let mut table = Rows {
        nums,
        numbers,
        dates,
    };
    let written = *clock;
    deliver::deliver(&mut table, gate, written, params, out)
}

// Delivers the registry of a day; its report is in the buffer.
#[unsafe(no_mangle)]
pub extern "C" fn roosteryore_settle(
    nums: &mut [[u64; 6]],
    numbers: &mut [[u8; 30]],
    dates: &mut [[[u8; 19]; 3]],
    gate: Gate,
    clock: &[u8; 19],
    day: Day,
    bytes: &[u8],
    out: &mut [u8],
) -> Reply
    ensures { delivery_of result (lent nums.new numbers.new dates.new) out.new ≡ settle gate (lent nums.old numbers.old dates.old) clock.now day bytes.now out.old }
{
    let mut table = Rows {
        nums,
        numbers,
        dates,
    };
    let written = *clock;
    settle::settle(&mut table, gate, written, day, bytes, out)
}
