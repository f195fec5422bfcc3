// The calls of the gate over accounts that are lent in columns, each a pointer to 256 elements.
ghost use Rattle.std.specs.Prelude.{◌≡◌};
ghost use Rattle.table.specs.Lent.{lent};
ghost use Rattle.table.specs.Columns.{gate_of, columns_of};
ghost use Rattle.opening.specs.Opening.{lent_reply, open_account, draw_funds};
ghost use Rattle.admission.specs.Delivery.{lent_delivery};
ghost use Rattle.gate.specs.Deliver.{deliver};

use fields::number::Number;
use gate::deliver;
use ledger::HeadReply;
use lists::rows::{Rows, RowsView};
use table::Head;
use table::columns::Accounts;

// Opens an account.
#[unsafe(no_mangle)]
pub extern "C" fn roosteryore_open_account_lent(
    nums: &[[u64; 6]],
    numbers: &[[u8; 30]],
    dates: &[[[u8; 19]; 3]],
    names: &mut [[u8; 30]; 256],
    keys: &mut [[u64; 2]; 256],
    balances: &mut [i64; 256],
    head: Head,
    number: Number,
    kind: u64,
) -> HeadReply
    ensures { lent_reply result (columns_of names.new keys.new balances.new) ≡ open_account (gate_of head (columns_of names.old keys.old balances.old)) (lent nums.now numbers.now dates.now) number kind }
{
    let table = RowsView {
        nums,
        numbers,
        dates,
    };
    opening::open_lent(table, names, keys, balances, head, number, kind)
}

// Draws kopecks from an account.
#[unsafe(no_mangle)]
pub extern "C" fn roosteryore_draw_funds_lent(
    nums: &[[u64; 6]],
    numbers: &[[u8; 30]],
    dates: &[[[u8; 19]; 3]],
    names: &[[u8; 30]; 256],
    keys: &[[u64; 2]; 256],
    balances: &mut [i64; 256],
    head: Head,
    number: Number,
    kind: u64,
    kopecks: u64,
) -> HeadReply
    ensures { lent_reply result (columns_of names.now keys.now balances.new) ≡ draw_funds (gate_of head (columns_of names.now keys.now balances.old)) (lent nums.now numbers.now dates.now) number kind kopecks }
{
    let table = RowsView {
        nums,
        numbers,
        dates,
    };
    let mut accounts = Accounts {
        names,
        keys,
        balances,
    };
    opening::draw_lent(table, &mut accounts, head, number, kind, kopecks)
}

// Delivers a request; its answer is in the buffer.
#[unsafe(no_mangle)]
pub extern "C" fn roosteryore_deliver_lent(
    nums: &mut [[u64; 6]],
    numbers: &mut [[u8; 30]],
    dates: &mut [[[u8; 19]; 3]],
    names: &[[u8; 30]; 256],
    keys: &[[u64; 2]; 256],
    balances: &mut [i64; 256],
    head: Head,
    clock: &[u8; 19],
    params: &[u8],
    out: &mut [u8],
) -> HeadReply
    ensures { lent_delivery result (columns_of names.now keys.now balances.new) (lent nums.new numbers.new dates.new) out.new
        ≡ deliver (gate_of head (columns_of names.now keys.now balances.old)) (lent nums.old numbers.old dates.old) clock.now params.now out.old }
{
    let mut table = Rows {
        nums,
        numbers,
        dates,
    };
    let mut accounts = Accounts {
        names,
        keys,
        balances,
    };
    let written = *clock;
    deliver::deliver_lent(&mut table, &mut accounts, head, written, params, out)
}
