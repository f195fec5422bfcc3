// The payment table: three lent rows, read and written a record at a time.
ghost use Rattle.std.specs.Prelude.{◌≡◌, ◌==◌, slice_index, position, [], ◌<◌, ◌≤◌, length, get_or};
ghost use Rattle.table.specs.Table.{record_from, record_at, rows_with, records_of, find_record};
ghost use Rattle.lists.specs.Rows.{SameLoan};
ghost use Rattle.table.specs.Lent.{rows_in, rows_seen};

use crate::Record;
use fields::number::Number;
use lists::rows::{Rows, RowsView};

// The table as it is lent, to be written or to be read alone.
pub type Table<'a> = Rows<'a, [u64; 6], [[u8; 19]; 3]>;

pub type TableView<'a> = RowsView<'a, [u64; 6], [[u8; 19]; 3]>;

// The record of these numbers, account number and dates.
fn record_of(w: [u64; 6], bytes: [u8; 30], d: [[u8; 19]; 3]) -> Record
    ensures value { result ≡ record_from w bytes d }
    ensures w_len { (length w ≡ 6) × (length d ≡ 3) }
{
    let [receipt, len, kind, amount, state, authcode] = w;
    let [date, credit, cancel] = d;
    Record {
        receipt,
        number: Number {
            bytes,
            len: len as usize,
        },
        kind,
        amount,
        date,
        state,
        authcode,
        credit,
        cancel,
    }
}

// The record at i.
pub fn load(t: TableView<'_>, i: usize) -> Record
    requires { (i < length t.nums.now) × (i < length t.numbers.now) × (i < length t.dates.now) }
    ensures value { result ≡ record_at (rows_seen t.entry) i }
    ensures i_len { (length (get_or t.entry.nums.now i []) ≡ 6) × (length (get_or t.entry.dates.now i []) ≡ 3) }
    ensures bytes_len { (length result.number.bytes ≡ 30) × (length result.date ≡ 19) × (length result.credit ≡ 19) × (length result.cancel ≡ 19) }
{
    record_of(t.nums[i], t.numbers[i], t.dates[i])
}

// Puts r at i.
pub fn store(t: &mut Table<'_>, i: usize, r: Record)
    requires { (i < length t.old.nums.now) × (i < length t.old.numbers.now) × (i < length t.old.dates.now) }
    ensures rows { rows_in t.new ≡ rows_with (rows_in t.old) i r }
    ensures same_loan { SameLoan t.old t.new }
{
    let Record {
        number: Number { bytes, len },
        date,
        credit,
        cancel,
        ..
    } = r;
    t.nums[i] = [r.receipt, len as u64, r.kind, r.amount, r.state, r.authcode];
    t.numbers[i] = bytes;
    t.dates[i] = [date, credit, cancel];
}

// The first row that begins with this receipt.
fn place_of(nums: &[[u64; 6]], receipt: u64) -> Option<usize>
    ensures { result ≡ position (λ w. slice_index w 0 == receipt) nums.now }
{
    nums.iter().position(|w| w[0] == receipt)
}

// The first of the first `used` records that has this receipt.
pub fn find_record(t: TableView<'_>, used: usize, receipt: u64) -> Option<usize>
    requires { used ≤ length t.nums.now }
    ensures { result ≡ find_record receipt (records_of (rows_seen t.entry) used) }
{
    place_of(&t.nums[..used], receipt)
}
