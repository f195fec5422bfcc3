#![tactic(auto)]
// A call on the gate as one value: what it asks for, with its parameters.
ghost use Rattle.std.specs.Prelude.{◌≡◌};
ghost use Rattle.lists.specs.Rows.{SameLoan};
ghost use Rattle.table.specs.Lent.{rows_in};
ghost use Rattle.admission.specs.Delivery.{delivery_of};
ghost use Rattle.calls.specs.Calls.{call_on, request_call, registry_call, opening_call, drawing_call};

use days::calendar::Day;
use fields::number::Number;
use gate::deliver;
use ledger::Reply;
use settlement::settle;
use table::Gate;
use table::rows::Table;

// A call, but for its text.
#[derive(Clone, Copy)]
pub enum Call {
    Request {
        clock: [u8; 19],
    },
    Registry {
        clock: [u8; 19],
        day: Day,
    },
    Opening {
        number: Number,
        kind: u64,
    },
    Drawing {
        number: Number,
        kind: u64,
        kopecks: u64,
    },
}

// A call on the table. Opening and drawing read no text and write none.
#[tactic(auto, unfolding(crate::specs::Calls::call_on))]
pub fn call_on(table: &mut Table<'_>, gate: Gate, call: Call, text: &[u8], out: &mut [u8]) -> Reply
    ensures value { delivery_of result (rows_in table.new) out.new ≡ call_on gate call text.now out.old (rows_in table.old) }
    ensures same_loan { SameLoan table.old table.new }
{
    match call {
        Call::Request { clock } => deliver::deliver(table, gate, clock, text, out),
        Call::Registry { clock, day } => settle::settle(table, gate, clock, day, text, out),
        Call::Opening { number, kind } => {
            opening::open_account(table.view(), gate, number, kind)
        }
        Call::Drawing {
            number,
            kind,
            kopecks,
        } => opening::draw_funds(table.view(), gate, number, kind, kopecks),
    }
}

// A request, as a call.
pub fn request_call(clock: [u8; 19]) -> Call
    ensures { result ≡ request_call clock }
{
    Call::Request { clock }
}

// A registry, as a call.
pub fn registry_call(clock: [u8; 19], day: Day) -> Call
    ensures { result ≡ registry_call clock day }
{
    Call::Registry { clock, day }
}

// The opening of an account, as a call.
pub fn opening_call(number: Number, kind: u64) -> Call
    ensures { result ≡ opening_call number kind }
{
    Call::Opening { number, kind }
}

// A drawing from an account, as a call.
pub fn drawing_call(number: Number, kind: u64, kopecks: u64) -> Call
    ensures { result ≡ drawing_call number kind kopecks }
{
    Call::Drawing {
        number,
        kind,
        kopecks,
    }
}
