// Records by value, of which the first are lent to a call.
ghost use Rattle.std.specs.Prelude.{◌≡◌, ◌≤◌, take};
ghost use Rattle.records.specs.Records.{called_of, call_records};
ghost use Rattle.gate_samples.specs.Lending.{with_rest};

use calls::Call;
use ledger::Reply;
use table::{Gate, Record};

// What a call over records answered, and the records as it left them.
#[derive(Clone, Copy)]
pub struct Desk {
    pub records: [Record; 4],
    pub reply: Reply,
}

// Puts the two together.
fn at_desk(records: [Record; 4], reply: Reply) -> Desk
    ensures { (result.records ≡ records) × (result.reply ≡ reply) }
{
    Desk { records, reply }
}

// A call over the first n records.
pub fn call_first(
    records: [Record; 4],
    n: usize,
    gate: Gate,
    call: Call,
    text: &[u8],
    out: &mut [u8],
) -> Desk
    requires { n ≤ 4 }
    ensures { called_of result.reply result.records out.new ≡ with_rest n records (call_records gate (take n records) call text.now out.old) }
{
    let mut lent = records;
    let reply = records::call_records(&mut lent[..n], gate, call, text, out);
    at_desk(lent, reply)
}
