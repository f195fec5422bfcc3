// A request delivered to the gate.
ghost use Rattle.lists.specs.Rows.{SameLoan};
ghost use Rattle.std.specs.Prelude.{◌≡◌, true, ◌<◌};
ghost use Rattle.table.specs.Lent.{rows_in};
ghost use Rattle.table.specs.Columns.{gate_of, columns_in, SameAccounts};
ghost use Rattle.validity.specs.Valid.{Ready, table_good};
ghost use Rattle.message.specs.Request.{fault_number, asked_of};
ghost use Rattle.gate.specs.Deliver.{instruction_of, respond, deliver};
ghost use Rattle.admission.specs.Delivery.{delivery_of, lent_delivery};

use answers::write;
use ledger::{HeadReply, Reply, change};
use message::request;
use message::request::{Asked, Refusal};
use payments::{Details, Instruction};
use rules::answer;
use table::columns::Accounts;
use table::rows::Table;
use table::{Gate, Head, columns};

// What a request of this wire asks, whatever the wire.
fn instruction_of(q: Asked) -> Instruction
    ensures { result ≡ instruction_of q }
{
    let date = q.date;
    Instruction {
        action: q.action,
        details: Details {
            receipt: q.receipt,
            number: q.number,
            kind: q.kind,
            amount: q.amount,
            date,
        },
    }
}

// The fault of a request, 0 where it has none, and what it asks.
fn asked_in(q: Result<Asked, Refusal>) -> (u64, Asked)
    ensures { (result.0 ≡ fault_number q) × (result.1 ≡ asked_of q) }
{
    match q {
        Ok(asked) => (0, asked),
        Err(r) => (r.fault.into(), Asked::nothing(r.action)),
    }
}

// Executes what a request asks, and writes the answer.
fn answer_read(
    table: &mut Table<'_>,
    accounts: &mut Accounts<'_>,
    head: Head,
    clock: [u8; 19],
    fault: u64,
    asked: Asked,
    out: &mut [u8],
) -> HeadReply
    requires ready { Ready (gate_of head (columns_in accounts.old)) (rows_in table.old) }
    requires good { table_good (gate_of head (columns_in accounts.old)) (rows_in table.old) ≡ true }
    requires small { asked.amount < 1000000000 }
    ensures value { lent_delivery result (columns_in accounts.new) (rows_in table.new) out.new
        ≡ respond (gate_of head (columns_in accounts.old)) (rows_in table.old) clock fault (instruction_of asked) out.old }
    ensures same_loan { SameLoan table.old table.new }
    ensures same_accounts { SameAccounts accounts.old accounts.new }
{
    let x = change::execute(table, accounts, head, clock, fault, instruction_of(asked));
    let answer = answer::answer_of(asked.action, x.code, x.subject, clock);
    let size = write::write_answer(answer, out, 0);
    HeadReply {
        code: x.code,
        head: Head {
            used: x.used,
            ..head
        },
        size,
    }
}

// A request delivered to the gate, its accounts lent in columns: 68, 50 and 51 keep all; any other code is answered in the buffer.
pub fn deliver_lent(
    table: &mut Table<'_>,
    accounts: &mut Accounts<'_>,
    head: Head,
    clock: [u8; 19],
    params: &[u8],
    out: &mut [u8],
) -> HeadReply
    ensures value { lent_delivery result (columns_in accounts.new) (rows_in table.new) out.new
        ≡ deliver (gate_of head (columns_in accounts.old)) (rows_in table.old) clock params.now out.old }
    ensures same_loan { SameLoan table.old table.new }
    ensures same_accounts { SameAccounts accounts.old accounts.new }
{
    let fault = admission::admit(table.view(), accounts.view(), head, clock, out.len());
    if fault != 0 {
        return HeadReply {
            code: fault,
            head,
            size: 0,
        };
    }
    let (fault, asked) = asked_in(request::read_request(params));
    answer_read(table, accounts, head, clock, fault, asked, out)
}

// The same with the gate by value.
pub fn deliver(
    table: &mut Table<'_>,
    gate: Gate,
    clock: [u8; 19],
    params: &[u8],
    out: &mut [u8],
) -> Reply
    ensures value { delivery_of result (rows_in table.new) out.new ≡ deliver gate (rows_in table.old) clock params.now out.old }
    ensures same_loan { SameLoan table.old table.new }
{
    let mut names = columns::empty_names();
    let mut keys = columns::empty_keys();
    let mut balances = columns::empty_balances();
    columns::unpack(gate, &mut names, &mut keys, &mut balances);
    let mut accounts = Accounts {
        names: &names,
        keys: &keys,
        balances: &mut balances,
    };
    let r = deliver_lent(
        table,
        &mut accounts,
        columns::head_of(gate),
        clock,
        params,
        out,
    );
    Reply {
        code: r.code,
        gate: columns::pack(r.head, accounts.view()),
        size: r.size,
    }
}
