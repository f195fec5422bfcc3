// The records of a line's receipt, found by the chains of the table's receipts.
ghost use Rattle.std.specs.Prelude.{◌≡◌, ℕ, ◌+◌, ◌<◌, ◌≤◌, length, get_or};
ghost use Rattle.lists.specs.Lists.{first_from};
ghost use Rattle.index.specs.Index.{slot_of, Chained};
ghost use Rattle.table.specs.Table.{records_of};
ghost use Rattle.table.specs.Lent.{rows_seen};
ghost use Rattle.posting.specs.Lookup.{receipt_at, fits};

use crate::matching;
use lines::line::Line;
use table::rows::TableView;
use table::{Record, rows};

// A record of the line's receipt, one that the line matches, or such a one that is done.
#[derive(Clone, Copy, PartialEq, Eq)]
pub enum Sought {
    SameReceipt,
    Matched,
    MatchedDone,
}

// Chains the first `used` records, from the last.
pub fn link_records(nums: &[[u64; 6]], used: usize, heads: &mut [u16], next: &mut [u16])
    requires used_in_bounds { (used ≤ length nums.now) × (used ≤ 4096) × (used ≤ length next.old) }
    requires heads_len { (length heads.old ≡ 8192) × ((s : ℕ) → get_or heads.old s 0 ≡ 0) }
    ensures { Chained (receipt_at nums.now) 0 used heads.new next.new }
{
    for i in (0..used).rev() {
        index::push(heads, next, i, nums[i][0]);
    }
}

// Whether a record is what is sought for the line.
fn is_sought(w: Sought, x: Line, r: Record) -> bool
    ensures { result ≡ fits w x r }
{
    match w {
        Sought::SameReceipt => r.receipt == x.receipt,
        Sought::Matched => matching::matches_record(x, r),
        Sought::MatchedDone => r.state == table::DONE && matching::matches_record(x, r),
    }
}

// The first of the first `used` records that is what is sought for the line.
pub fn find(
    table: TableView<'_>,
    used: usize,
    heads: &[u16],
    next: &[u16],
    w: Sought,
    x: Line,
) -> Option<usize>
    requires used_in_bounds { (used ≤ length table.nums.now) × (used ≤ length table.numbers.now) × (used ≤ length table.dates.now) }
    requires chained { Chained (receipt_at table.nums.now) 0 used heads.now next.now }
    ensures { result ≡ first_from (fits w x) 0 (records_of (rows_seen table.entry) used) }
{
    let mut at = index::first(heads, x.receipt);
    while 0 < at {
        let j = at - 1;
        let r = rows::load(table, j);
        if is_sought(w, x, r) {
            return Some(j);
        }
        at = index::after(next, j);
    }
    None
}

// The last place of the chain that place i stands in.
fn last_from(nums: &[[u64; 6]], used: usize, heads: &[u16], next: &[u16], i: usize) -> usize
    requires { Chained (receipt_at nums.now) 0 used heads.now next.now × (i < used) }
    ensures { (result < used) × (slot_of (receipt_at nums.now result) ≡ slot_of (receipt_at nums.now i)) × (get_or next.now result 0 ≡ 0) }
{
    let mut k = i;
    let mut at = index::after(next, k);
    while 0 < at {
        k = at - 1;
        at = index::after(next, k);
    }
    k
}

// Chains the record behind the first `used`.
fn append(nums: &[[u64; 6]], used: usize, heads: &mut [u16], next: &mut [u16])
    requires chained { Chained (receipt_at nums.now) 0 used heads.old next.old }
    requires used_in_bounds { (used < length nums.now) × (used < length next.old) × (used < 4096) }
    ensures { Chained (receipt_at nums.now) 0 (used + 1) heads.new next.new }
{
    let key = nums[used][0];
    let head = index::first(heads, key);
    if 0 < head {
        let k = last_from(nums, used, heads, next, head - 1);
        index::join(next, k, used);
    } else {
        index::push(heads, next, used, key);
    }
}

// Chains what a line has added to the first `before` records, so that the first `used` are chained.
pub fn follow(nums: &[[u64; 6]], before: usize, used: usize, heads: &mut [u16], next: &mut [u16])
    requires chained { Chained (receipt_at nums.now) 0 before heads.old next.old × (before ≤ used) × (used ≤ before + 1) }
    requires used_in_bounds { (used ≤ length nums.now) × (used ≤ length next.old) × (used ≤ 4096) }
    ensures { Chained (receipt_at nums.now) 0 used heads.new next.new }
{
    if before < used {
        append(nums, before, heads, next);
    }
}
