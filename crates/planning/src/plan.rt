// What the gate looks up for a request, and its decision.
ghost use Rattle.std.specs.Prelude.{◌≡◌, ◌≤◌, ◌<◌, length};
ghost use Rattle.table.specs.Table.{records_of};
ghost use Rattle.table.specs.Lent.{lent, rows_seen};
ghost use Rattle.planning.specs.Plan.{Within, record_found, agrees, standing_of, account_of, date_of, is_short, view_of, plan_with};
ghost use Rattle.table.specs.Table.{no_record};
ghost use Rattle.table.specs.Accounts.{balance_of, holding_of};
ghost use Rattle.table.specs.Columns.{gate_of, columns_seen};

use dates::date;
use days::calendar::Day;
use fields::number::Number;
use payments::{Action, Details, Instruction};
use rules::decision::{Decided, Standing, View};
use rules::{answer, decision};
use table::accounts::Holding;
use table::columns::AccountsView;
use table::rows::TableView;
use table::{Gate, Head, Record, accounts, columns, payment, rows};

// The decision, with the record and the account that it concerns.
#[derive(Clone, Copy)]
pub struct Plan {
    pub decided: Decided,
    pub found: Option<usize>,
    pub payment: Record,
    pub account: Option<usize>,
}

// What stands for a record where there is none.
pub fn no_record() -> Record
    ensures { result ≡ no_record }
{
    Record {
        receipt: 0,
        number: Number {
            bytes: [0u8; 30],
            len: 0,
        },
        kind: 0,
        amount: 0,
        date: [0u8; 19],
        state: 0,
        authcode: 0,
        credit: [0u8; 19],
        cancel: [0u8; 19],
    }
}

// Whether a record has what an action tells of its payment: a payment tells all four, status and cancel none of them.
fn agrees(a: Action, d: Details, r: Record) -> bool
    ensures { result ≡ agrees a d r }
{
    match a {
        Action::Payment => payment::same_payment(d.number, d.kind, d.amount, d.date, r),
        Action::Check | Action::Status | Action::Cancel => true,
    }
}

// How the receipt of an instruction stands, by the record that was found.
pub fn standing(q: Instruction, found: Option<usize>, r: Record) -> Standing
    ensures { result ≡ standing_of q found r }
{
    if found.is_none() {
        Standing::Unrecorded
    } else if !agrees(q.action, q.details, r) {
        Standing::Other
    } else if r.state == table::DONE {
        Standing::Done
    } else {
        Standing::Cancelled
    }
}

// The account that a request concerns, with its balance: a cancel's is its record's.
#[tactic(auto, unfolding(crate::specs::Plan::account_of))]
pub fn holding_of(accounts: AccountsView<'_>, head: Head, q: Instruction, r: Record) -> Holding
    requires { head.count ≤ 256 }
    ensures { result ≡ holding_of (gate_of head (columns_seen accounts.entry)) (account_of (gate_of head (columns_seen accounts.entry)) q r) }
{
    if answer::is_cancel(q.action) {
        columns::look_up(accounts, head, r.number, r.kind)
    } else {
        let d = q.details;
        columns::look_up(accounts, head, d.number, d.kind)
    }
}

// The date that a request concerns: a cancel's is its record's.
#[tactic(auto, unfolding(crate::specs::Plan::date_of))]
pub fn date_of(q: Instruction, r: Record) -> [u8; 19]
    ensures { result ≡ date_of q r }
{
    if answer::is_cancel(q.action) {
        r.date
    } else {
        q.details.date
    }
}

// Whether the balance of the account that was found is below an amount.
pub fn is_short(h: Holding, n: u64) -> bool
    requires { n < 1000000000 }
    ensures { (g : Gate) → h.balance ≡ balance_of g h.at → result ≡ is_short g h.at n }
{
    h.at.is_some() && accounts::is_less(h.balance, n)
}

// What else the decision looks at, at a gate of this closed day and so many records.
#[tactic(auto, unfolding(crate::specs::Plan::view_of, crate::specs::Plan::is_full, crate::specs::Plan::date_closed))]
pub fn view_of(closed: Day, used: usize, lent: usize, q: Instruction, r: Record, h: Holding) -> View
    requires { r.amount < 1000000000 }
    ensures { (g : Gate) → g.closed ≡ closed → g.used ≡ used → h.balance ≡ balance_of g h.at → result ≡ view_of g lent q r h.at }
{
    View {
        known: h.at.is_some(),
        full: lent <= used,
        closed: date::is_up_to(closed, date_of(q, r)),
        short: is_short(h, r.amount),
    }
}

// The record that a lookup found.
pub fn found_record(table: TableView<'_>, used: usize, f: Option<usize>) -> Record
    requires { (used ≤ length table.nums.now) × (used ≤ length table.numbers.now) × (used ≤ length table.dates.now) × Within f used }
    ensures { result ≡ record_found (records_of (rows_seen table.entry) used) f }
{
    match f {
        Some(i) => rows::load(table, i),
        None => no_record(),
    }
}

// The decision for an instruction, with what it concerns, at a gate of this closed day and so many records; a fault of its request decides first.
#[tactic(auto, unfolding(crate::specs::Plan::plan_with))]
pub fn make_plan(
    closed: Day,
    used: usize,
    lent: usize,
    fault: u64,
    q: Instruction,
    found: Option<usize>,
    payment: Record,
    h: Holding,
) -> Plan
    requires { payment.amount < 1000000000 }
    ensures { (g : Gate) → g.closed ≡ closed → g.used ≡ used → h ≡ holding_of g (account_of g q payment) → result ≡ plan_with g lent fault q found payment }
{
    let v = view_of(closed, used, lent, q, payment, h);
    let s = standing(q, found, payment);
    Plan {
        decided: decision::decide(fault, q.action, s, v),
        found,
        payment,
        account: h.at,
    }
}
