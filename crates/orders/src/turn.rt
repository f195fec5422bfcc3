// What a line of a session does.
ghost use Rattle.std.specs.Prelude.{◌≡◌, true};
ghost use Rattle.lists.specs.Rows.{SameLoan};
ghost use Rattle.table.specs.Table.{Rows};
ghost use Rattle.table.specs.Lent.{rows_in, rows_seen};
ghost use Rattle.table.specs.Columns.{Columns, columns_of, columns_in, columns_seen, SameAccounts};
ghost use Rattle.opening.specs.Opening.{lent_reply};
ghost use Rattle.orders.specs.declared.turn.Shown.TheVariants.{Figures};
ghost use Rattle.orders.specs.Order.{console_of, turn_of, unread, replied, number_in, kind_in, start_turn, open_turn, draw_turn, ask_turn, list_turn, order_turn, line_turn};

use crate::ConsoleHead;
use dates::date;
use days::calendar;
use days::calendar::Day;
use fields::number::Number;
use fields::{codes, number};
use gate::deliver;
use ledger::HeadReply;
use table::Head;
use table::columns::{Accounts, AccountsView};
use table::rows::{Table, TableView};
use texts::digits;
use validity::valid;

// What a line prints: its figures, or the payments of a day.
#[derive(Clone, Copy)]
pub enum Shown {
    Figures,
    Payments(Day),
}

// A line's code, or 99, as it is printed, the console after it, and what else it prints.
#[derive(Clone, Copy)]
pub struct Turn {
    pub code: u64,
    pub console: ConsoleHead,
    pub shown: Shown,
}

// The account that a line names.
#[derive(Clone, Copy)]
struct Subject {
    number: Number,
    kind: u64,
}

// A line that is not understood.
fn not_read(x: ConsoleHead) -> Turn
    ensures { (result.code ≡ 99) × (result.console ≡ x) × (result.shown ≡ Figures) }
{
    Turn {
        code: 99,
        console: x,
        shown: Shown::Figures,
    }
}

// What a call at the gate answers.
fn answered(r: HeadReply) -> Turn
    ensures { (result.code ≡ r.code) × (result.console ≡ record { started = true; head = r.head }) × (result.shown ≡ Figures) }
{
    Turn {
        code: r.code,
        console: ConsoleHead {
            started: true,
            head: r.head,
        },
        shown: Shown::Figures,
    }
}

// Number and type in the fields of an opening and of a draw: without bytes where the number is malformed, and one that there is not where the type is.
fn subject_of(line: &[u8]) -> Subject
    ensures { (result.number ≡ number_in line.now) × (result.kind ≡ kind_in line.now) }
{
    let none = Number {
        bytes: [0; 30],
        len: 0,
    };
    let number = number::read_number(line_fields::field_at(line, 1)).unwrap_or(none);
    let kind = codes::read_kind(line_fields::field_at(line, 2)).unwrap_or(1000);
    Subject { number, kind }
}

// C: a day starts the session.
#[tactic(auto, unfolding(crate::specs::Order::start_turn))]
fn start_turn(x: ConsoleHead, line: &[u8]) -> Turn
    ensures { (a : Columns) (t : Rows) → turn_of result a t ≡ start_turn (console_of x a) t line.now }
{
    if !line_fields::has_form(line, b'C', 2) {
        return not_read(x);
    }
    let Some(d) = calendar::read_day(line_fields::field_at(line, 1)) else {
        return not_read(x);
    };
    answered(HeadReply {
        code: 0,
        head: Head {
            closed: d,
            ..x.head
        },
        size: 0,
    })
}

// O: an opening.
#[tactic(auto, unfolding(crate::specs::Order::open_turn))]
fn open_turn(
    table: TableView<'_>,
    names: &mut [[u8; 30]; 256],
    keys: &mut [[u64; 2]; 256],
    balances: &mut [i64; 256],
    x: ConsoleHead,
    line: &[u8],
) -> Turn
    ensures { turn_of result (columns_of names.new keys.new balances.new) (rows_seen table.entry)
        ≡ open_turn (console_of x (columns_of names.old keys.old balances.old)) (rows_seen table.entry) line.now }
{
    let s = subject_of(line);
    answered(opening::open_lent(table, names, keys, balances, x.head, s.number, s.kind))
}

// D: a draw, of kopecks in 1 to 15 digits.
#[tactic(auto, unfolding(crate::specs::Order::draw_turn))]
fn draw_turn(table: TableView<'_>, accounts: &mut Accounts<'_>, x: ConsoleHead, line: &[u8]) -> Turn
    ensures value { turn_of result (columns_in accounts.new) (rows_seen table.entry)
        ≡ draw_turn (console_of x (columns_in accounts.old)) (rows_seen table.entry) line.now }
    ensures same_accounts { SameAccounts accounts.old accounts.new }
{
    let Some(kopecks) = digits::read_digits(line_fields::field_at(line, 3), 15) else {
        return not_read(x);
    };
    let s = subject_of(line);
    answered(opening::draw_lent(table, accounts, x.head, s.number, s.kind, kopecks))
}

// R: a request; its answer is not shown.
#[tactic(auto, unfolding(crate::specs::Order::ask_turn))]
fn ask_turn(table: &mut Table<'_>, accounts: &mut Accounts<'_>, x: ConsoleHead, line: &[u8]) -> Turn
    ensures value { turn_of result (columns_in accounts.new) (rows_in table.new)
        ≡ ask_turn (console_of x (columns_in accounts.old)) (rows_in table.old) line.now }
    ensures same_loan { SameLoan table.old table.new }
    ensures same_accounts { SameAccounts accounts.old accounts.new }
{
    let mut out = [0u8; 512];
    let clock = date::read_date(line_fields::field_at(line, 1)).unwrap_or([0; 19]);
    let params = line_fields::params_in(line);
    answered(deliver::deliver_lent(table, accounts, x.head, clock, params, &mut out))
}

// P: the payments of a day are printed.
#[tactic(auto, unfolding(crate::specs::Order::list_turn))]
fn list_turn(table: TableView<'_>, accounts: AccountsView<'_>, x: ConsoleHead, line: &[u8]) -> Turn
    ensures { turn_of result (columns_seen accounts.entry) (rows_seen table.entry)
        ≡ list_turn (console_of x (columns_seen accounts.entry)) (rows_seen table.entry) line.now }
{
    let Some(d) = calendar::read_day(line_fields::field_at(line, 1)) else {
        return not_read(x);
    };
    if !valid::table_good(table, accounts, x.head) {
        return Turn {
            code: 68,
            console: x,
            shown: Shown::Figures,
        };
    }
    Turn {
        code: 0,
        console: x,
        shown: Shown::Payments(d),
    }
}

// A line of a started session, by its letter.
#[tactic(auto, unfolding(crate::specs::Order::order_turn))]
fn order_turn(
    table: &mut Table<'_>,
    names: &mut [[u8; 30]; 256],
    keys: &mut [[u64; 2]; 256],
    balances: &mut [i64; 256],
    x: ConsoleHead,
    line: &[u8],
) -> Turn
    ensures value { turn_of result (columns_of names.new keys.new balances.new) (rows_in table.new)
        ≡ order_turn (console_of x (columns_of names.old keys.old balances.old)) (rows_in table.old) line.now }
    ensures same_loan { SameLoan table.old table.new }
{
    if line_fields::has_form(line, b'O', 3) {
        return open_turn(table.view(), names, keys, balances, x, line);
    }
    let mut accounts = Accounts {
        names,
        keys,
        balances,
    };
    if line_fields::has_form(line, b'D', 4) {
        draw_turn(table.view(), &mut accounts, x, line)
    } else if line_fields::has_least(line, b'R', 3) {
        ask_turn(table, &mut accounts, x, line)
    } else if line_fields::has_form(line, b'P', 2) {
        list_turn(table.view(), accounts.view(), x, line)
    } else {
        not_read(x)
    }
}

// What a line does: the first of a session starts it.
#[tactic(auto, unfolding(crate::specs::Order::line_turn))]
pub fn line_turn(
    table: &mut Table<'_>,
    names: &mut [[u8; 30]; 256],
    keys: &mut [[u64; 2]; 256],
    balances: &mut [i64; 256],
    x: ConsoleHead,
    line: &[u8],
) -> Turn
    ensures value { turn_of result (columns_of names.new keys.new balances.new) (rows_in table.new)
        ≡ line_turn (console_of x (columns_of names.old keys.old balances.old)) (rows_in table.old) line.now }
    ensures same_loan { SameLoan table.old table.new }
{
    if x.started {
        order_turn(table, names, keys, balances, x, line)
    } else {
        start_turn(x, line)
    }
}
