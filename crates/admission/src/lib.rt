#![tactic(auto)]
// What is looked at before a request or a registry: everything lent, the buffer's room and the clock.
ghost use Rattle.std.specs.Prelude.{◌≡◌};
ghost use Rattle.table.specs.Lent.{rows_seen};
ghost use Rattle.table.specs.Columns.{gate_of, columns_seen};
ghost use Rattle.validity.specs.Valid.{Ready};
ghost use Rattle.admission.specs.Delivery.{admission};

use dates::date;
use table::columns::AccountsView;
use table::rows::TableView;
use table::{Gate, Head, columns};
use validity::valid;

// How many bytes the buffer of an answer or a report has at least.
const ROOM: usize = 512;

// 68, 50 or 51, or 0 where there is none of them.
pub fn admit(
    table: TableView<'_>,
    accounts: AccountsView<'_>,
    head: Head,
    clock: [u8; 19],
    room: usize,
) -> u64
    ensures value { result ≡ admission (gate_of head (columns_seen accounts.entry)) (rows_seen table.entry) clock room }
    ensures ready { result ≡ 0 → Ready (gate_of head (columns_seen accounts.entry)) (rows_seen table.entry) }
{
    if !valid::table_good(table, accounts, head) {
        return 68;
    }
    if room < ROOM {
        return 50;
    }
    if !date::is_written(clock) {
        return 51;
    }
    0
}

// The same with the gate by value.
pub fn admit_gate(table: TableView<'_>, gate: Gate, clock: [u8; 19], room: usize) -> u64
    ensures value { result ≡ admission gate (rows_seen table.entry) clock room }
    ensures ready { result ≡ 0 → Ready gate (rows_seen table.entry) }
{
    let mut names = columns::empty_names();
    let mut keys = columns::empty_keys();
    let mut balances = columns::empty_balances();
    columns::unpack(gate, &mut names, &mut keys, &mut balances);
    let head = columns::head_of(gate);
    let accounts = AccountsView {
        names: &names,
        keys: &keys,
        balances: &balances,
    };
    admit(table, accounts, head, clock, room)
}
