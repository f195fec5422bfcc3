// The three changes that a decision may make: none, a record more, its record cancelled.
ghost use Rattle.lists.specs.Rows.{SameLoan};
ghost use Rattle.std.specs.Prelude.{◌≡◌, List, [], ◌∷◌, ◌++◌, true, ℕ, ◌+◌, ◌<◌, ◌≤◌, length, ℤ, pos, ◌+ℤ◌, ◌-ℤ◌};
ghost use Rattle.std.specs.Int.Signed.{mag};
ghost use Rattle.table.specs.Table.{records_of, rows_from, Whole, SameLengths};
ghost use Rattle.table.specs.Lent.{rows_in, rows_seen};
ghost use Rattle.table.specs.Accounts.{balance_of};
ghost use Rattle.table.specs.Columns.{gate_of, used_head, columns_of, columns_in, columns_seen, SameAccounts};
ghost use Rattle.validity.specs.Valid.{Ready, table_good};
ghost use Rattle.planning.specs.Plan.{Within, Planned};
ghost use Rattle.ledger.specs.Change.{make_record, revoked, replaced_at, executed, moved_at, Made, Executes, Decides};

use payments::{Details, Instruction};
use planning::plan;
use planning::plan::Plan;
use rules::decision::Change;
use table::columns::{Accounts, AccountsView};
use table::rows::{Table, TableView};
use table::{Gate, Head, Record, accounts, columns, rows};

// What an instruction comes to: the code, a number as in `Decided`, how many records there are then, and the record that the answer speaks of.
#[derive(Clone, Copy)]
pub struct Execution {
    pub code: u64,
    pub used: usize,
    pub subject: Record,
}

// What a change leaves: how many records, the balance of the account that it concerns, and the record that the answer speaks of.
#[derive(Clone, Copy)]
pub(crate) struct Outcome {
    pub used: usize,
    pub balance: i64,
    pub subject: Record,
}

// The record of a payment that is credited now, by a gate with so many records.
pub fn make_record(used: usize, clock: [u8; 19], q: Details) -> Record
    requires { used < 4096 }
    ensures { (g : Gate) → g.used ≡ used → result ≡ make_record g clock q }
{
    let number = q.number;
    let date = q.date;
    Record {
        receipt: q.receipt,
        number,
        kind: q.kind,
        amount: q.amount,
        date,
        state: table::DONE,
        authcode: used as u64 + 1,
        credit: clock,
        cancel: [0u8; 19],
    }
}

// A record that is cancelled now.
pub fn revoke_record(clock: [u8; 19], r: Record) -> Record
    ensures { result ≡ revoked clock r }
{
    let mut next = r;
    next.state = table::CANCELLED;
    next.cancel = clock;
    next
}

// Puts the balance z at the account that was found.
fn move_balance(balances: &mut [i64], f: Option<usize>, z: i64)
    requires { (256 ≡ length balances.old) × Within f 256 }
    ensures { (h : Head) (names keys : List (List ℕ)) (n : ℕ) → gate_of (used_head h n) (columns_of names keys balances.new)
        ≡ moved_at (gate_of h (columns_of names keys balances.old)) f z n }
{
    if let Some(i) = f {
        columns::put_balance(balances, i, z);
    }
}

// Puts a record in the place that was found.
fn replace_at(table: &mut Table<'_>, used: usize, f: Option<usize>, r: Record)
    requires { Whole (rows_in table.old) used × Within f used }
    ensures value { rows_in table.new ≡ rows_from (rows_in table.old) (replaced_at (records_of (rows_in table.old) used) f r) }
    ensures same_loan { SameLoan table.old table.new }
{
    if let Some(i) = f {
        rows::store(table, i, r);
    }
}

// A record more, and its amount on the balance of its account.
fn append(table: &mut Table<'_>, used: usize, clock: [u8; 19], q: Details, b: i64) -> Outcome
    requires whole { Whole (rows_in table.old) used × SameLengths (rows_in table.old) × (length table.old.nums.now ≤ 4096) }
    requires used_in_bounds { (used < length table.old.nums.now) × (mag b ≤ 10000000000000000) × (q.amount < 1000000000) }
    ensures used_value { (result.used ≡ used + 1) × (result.balance ≡ b +ℤ pos q.amount) }
    ensures subject_value { (g : Gate) → g.used ≡ used → result.subject ≡ make_record g clock q }
    ensures dates_value { rows_in table.new ≡ rows_from (rows_in table.old) (records_of (rows_in table.old) used ++ (result.subject ∷ [])) }
    ensures same_loan { SameLoan table.old table.new }
{
    let r = make_record(used, clock, q);
    rows::store(table, used, r);
    Outcome {
        used: used + 1,
        balance: accounts::plus(b, q.amount),
        subject: r,
    }
}

// The record that was found cancelled, and its amount off the balance of its account.
#[tactic(auto, using(crate::proofs::ChangeLaws::revoke_laws))]
fn revoke(
    table: &mut Table<'_>,
    used: usize,
    clock: [u8; 19],
    f: Option<usize>,
    r: Record,
    b: i64,
) -> Outcome
    requires whole { Whole (rows_in table.old) used × SameLengths (rows_in table.old) × (length table.old.nums.now ≤ 4096) }
    requires within { Within f used × (mag b ≤ 10000000000000000) × (r.amount < 1000000000) }
    ensures used_value { (result.used ≡ used) × (result.balance ≡ b -ℤ pos r.amount) × (result.subject ≡ revoked clock r) }
    ensures dates_value { rows_in table.new ≡ rows_from (rows_in table.old) (replaced_at (records_of (rows_in table.old) used) f (revoked clock r)) }
    ensures same_loan { SameLoan table.old table.new }
{
    let next = revoke_record(clock, r);
    replace_at(table, used, f, next);
    Outcome {
        used,
        balance: accounts::minus(b, r.amount),
        subject: next,
    }
}

// Makes the change that was decided, at a gate with so many records and b on the account that it concerns.
fn make_change(
    table: &mut Table<'_>,
    used: usize,
    clock: [u8; 19],
    q: Instruction,
    p: Plan,
    b: i64,
) -> Outcome
    requires whole { Whole (rows_in table.old) used × SameLengths (rows_in table.old) × (length table.old.nums.now ≤ 4096) }
    requires planned { Planned used (rows_in table.old) p × (q.details.amount < 1000000000) × (mag b ≤ 10000000000000000) }
    ensures value { (g : Gate) → g.used ≡ used → balance_of g p.account ≡ b → Made (rows_in table.old)
        (executed g (records_of (rows_in table.old) used) clock q p)
        (moved_at g p.account result.balance result.used) result.subject
        (rows_in table.new) }
    ensures same_loan { SameLoan table.old table.new }
{
    let details = q.details;
    let d = p.decided;
    let c = d.change;
    let found = p.found;
    let payment = p.payment;
    match c {
        Change::Keep => Outcome {
            used,
            balance: b,
            subject: payment,
        },
        Change::Append => append(table, used, clock, details, b),
        Change::Revoke => revoke(table, used, clock, found, payment, b),
    }
}

// The decision on an instruction, and the balance of the account that it concerns; a fault of its request decides first.
fn plan_for(
    table: TableView<'_>,
    accounts: AccountsView<'_>,
    head: Head,
    fault: u64,
    q: Instruction,
) -> (Plan, i64)
    requires ready { Ready (gate_of head (columns_seen accounts)) (rows_seen table) }
    requires good { table_good (gate_of head (columns_seen accounts)) (rows_seen table) ≡ true }
    ensures { Decides (gate_of head (columns_seen accounts.entry)) (rows_seen table.entry) fault q result.0 result.1 }
{
    let used = head.used;
    let closed = head.closed;
    let details = q.details;
    let found = rows::find_record(table, used, details.receipt);
    let payment = plan::found_record(table, used, found);
    let h = plan::holding_of(accounts, head, q, payment);
    let p = plan::make_plan(closed, used, table.nums.len(), fault, q, found, payment, h);
    (p, h.balance)
}

// Decides on an instruction and makes the change.
pub fn execute(
    table: &mut Table<'_>,
    accounts: &mut Accounts<'_>,
    head: Head,
    clock: [u8; 19],
    fault: u64,
    q: Instruction,
) -> Execution
    requires ready { Ready (gate_of head (columns_in accounts.old)) (rows_in table.old) }
    requires dates_value { (table_good (gate_of head (columns_in accounts.old)) (rows_in table.old) ≡ true) × (q.details.amount < 1000000000) }
    ensures value { Executes (gate_of head (columns_in accounts.old)) (rows_in table.old) clock fault q
        result.code (gate_of (used_head head result.used) (columns_in accounts.new)) result.subject
        (rows_in table.new) }
    ensures same_loan { SameLoan table.old table.new }
    ensures same_accounts { SameAccounts accounts.old accounts.new }
{
    let (p, balance) = plan_for(table.view(), accounts.view(), head, fault, q);
    let o = make_change(table, head.used, clock, q, p, balance);
    move_balance(accounts.balances, p.account, o.balance);
    Execution {
        code: p.decided.code,
        used: o.used,
        subject: o.subject,
    }
}
