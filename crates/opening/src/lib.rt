#![tactic(auto)]
// Accounts opened, and drawn from.
ghost use Rattle.std.specs.Prelude.{◌≡◌, ◌&&◌, List, ℕ, ◌≤◌};
ghost use Rattle.std.specs.Int.Signed.{mag};
ghost use Rattle.fields.specs.Codes.{is_kind};
ghost use Rattle.fields.specs.Number.{is_number};
ghost use Rattle.table.specs.Lent.{rows_seen};
ghost use Rattle.table.specs.Accounts.{balance_of};
ghost use Rattle.table.specs.Columns.{Columns, gate_of, columns_of, columns_in, SameAccounts};
ghost use Rattle.planning.specs.Plan.{Within};
ghost use Rattle.opening.specs.Opening.{lent_reply, replies, open_to, open_account, draw_on, draw_funds};

use fields::number::Number;
use fields::{amount, codes};
use ledger::{HeadReply, Reply};
use table::accounts::Holding;
use table::columns::{Accounts, AccountsView};
use table::rows::TableView;
use table::{Gate, Head, accounts, columns};
use validity::valid;

// Whether number and type are well formed.
fn is_named(n: Number, kind: u64) -> bool
    ensures { result ≡ is_number n && is_kind kind }
{
    n.is_valid() && codes::is_kind(kind)
}

// A reply that leaves the head as it is.
fn keep(code: u64, head: Head) -> HeadReply
    ensures { (a : Columns) → lent_reply result a ≡ replies code (gate_of head a) }
{
    HeadReply {
        code,
        head,
        size: 0,
    }
}

#[tactic(auto, using(crate::proofs::OpeningLaws::open_to_laws))]
fn open_to(
    names: &mut [[u8; 30]; 256],
    keys: &mut [[u64; 2]; 256],
    balances: &mut [i64; 256],
    head: Head,
    n: Number,
    kind: u64,
) -> HeadReply
    requires { head.count ≤ 256 }
    ensures { lent_reply result (columns_of names.new keys.new balances.new) ≡ open_to (gate_of head (columns_of names.old keys.old balances.old)) n kind }
{
    if !is_named(n, kind) {
        return keep(59, head);
    }
    if let Some(_) = columns::find_account(
        AccountsView {
            names,
            keys,
            balances,
        },
        head,
        n,
        kind,
    ) {
        return keep(56, head);
    }
    let at = head.count;
    if table::ACCOUNTS_MOST <= at {
        return keep(57, head);
    }
    columns::put_account(names, keys, balances, at, n, kind);
    let mut next = head;
    next.count = at + 1;
    keep(0, next)
}

// Opens an account with a balance of 0, among accounts that are lent in columns.
pub fn open_lent(
    table: TableView<'_>,
    names: &mut [[u8; 30]; 256],
    keys: &mut [[u64; 2]; 256],
    balances: &mut [i64; 256],
    head: Head,
    number: Number,
    kind: u64,
) -> HeadReply
    ensures { lent_reply result (columns_of names.new keys.new balances.new) ≡ open_account (gate_of head (columns_of names.old keys.old balances.old)) (rows_seen table.entry) number kind }
{
    if !valid::table_good(
        table,
        AccountsView {
            names,
            keys,
            balances,
        },
        head,
    ) {
        return keep(68, head);
    }
    open_to(names, keys, balances, head, number, kind)
}

// The same with the gate by value.
pub fn open_account(table: TableView<'_>, gate: Gate, number: Number, kind: u64) -> Reply
    ensures { result ≡ open_account gate (rows_seen table.entry) number kind }
{
    let mut names = columns::empty_names();
    let mut keys = columns::empty_keys();
    let mut balances = columns::empty_balances();
    columns::unpack(gate, &mut names, &mut keys, &mut balances);
    let h = columns::head_of(gate);
    let r = open_lent(table, &mut names, &mut keys, &mut balances, h, number, kind);
    Reply {
        code: r.code,
        gate: columns::pack(
            r.head,
            AccountsView {
                names: &names,
                keys: &keys,
                balances: &balances,
            },
        ),
        size: r.size,
    }
}

// A draw from the account that was looked up.
fn draw_on(balances: &mut [i64; 256], head: Head, h: Holding, kopecks: u64) -> HeadReply
    requires { Within h.at 256 × (mag h.balance ≤ 10000000000000000) }
    ensures { (names keys : List (List ℕ)) → h.balance ≡ balance_of (gate_of head (columns_of names keys balances.old)) h.at
        → lent_reply result (columns_of names keys balances.new) ≡ draw_on (gate_of head (columns_of names keys balances.old)) h.at kopecks }
{
    let f = h.at;
    let Some(a) = f else {
        return keep(59, head);
    };
    if !amount::is_amount(kopecks) {
        return keep(58, head);
    }
    if accounts::is_less(h.balance, kopecks) {
        return keep(58, head);
    }
    columns::put_balance(balances, a, accounts::minus(h.balance, kopecks));
    keep(0, head)
}

// Draws kopecks from an account, as a print job does; the accounts are lent in columns.
pub fn draw_lent(
    table: TableView<'_>,
    accounts: &mut Accounts<'_>,
    head: Head,
    number: Number,
    kind: u64,
    kopecks: u64,
) -> HeadReply
    ensures value { lent_reply result (columns_in accounts.new) ≡ draw_funds (gate_of head (columns_in accounts.old)) (rows_seen table.entry) number kind kopecks }
    ensures same_accounts { SameAccounts accounts.old accounts.new }
{
    let seen = accounts.view();
    if !valid::table_good(table, seen, head) {
        return keep(68, head);
    }
    if !is_named(number, kind) {
        return keep(59, head);
    }
    let h = columns::look_up(seen, head, number, kind);
    draw_on(accounts.balances, head, h, kopecks)
}

// The same with the gate by value.
pub fn draw_funds(
    table: TableView<'_>,
    gate: Gate,
    number: Number,
    kind: u64,
    kopecks: u64,
) -> Reply
    ensures { result ≡ draw_funds gate (rows_seen table.entry) number kind kopecks }
{
    let mut names = columns::empty_names();
    let mut keys = columns::empty_keys();
    let mut balances = columns::empty_balances();
    columns::unpack(gate, &mut names, &mut keys, &mut balances);
    let h = columns::head_of(gate);
    let mut accounts = Accounts {
        names: &names,
        keys: &keys,
        balances: &mut balances,
    };
    let r = draw_lent(table, &mut accounts, h, number, kind, kopecks);
    Reply {
        code: r.code,
        gate: columns::pack(r.head, accounts.view()),
        size: r.size,
    }
}
