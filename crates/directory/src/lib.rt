#![tactic(auto)]
// The gate's accounts by number and type, in rows without their balances: filled once, looked up while balances move.
mod digest;

ghost use Rattle.std.specs.Prelude.{◌≡◌, ◌<◌, ◌≤◌, length, take};
ghost use Rattle.table.specs.Accounts.{find_account};
ghost use Rattle.directory.specs.Directory.{holder_at, holders_of, Keyed, Listed};

use fields::number::Number;
use table::{Account, Gate, accounts};

// The numbers of the 256 accounts that a gate may have, none filled in yet.
pub fn empty_names() -> [[u8; 30]; 256]
    ensures { 256 ≡ length result }
{
    [[0u8; 30]; 256]
}

// The lengths of their numbers, their types, and the digests of both.
pub fn empty_keys() -> [[u64; 3]; 256]
    ensures { 256 ≡ length result }
{
    [[0u64; 3]; 256]
}

// Fills the first rows with the accounts in use.
// Not put into its caller: the gate that it walks over lies in the stack only while it walks.
#[inline(never)]
pub fn fill(names: &mut [[u8; 30]], keys: &mut [[u64; 3]], g: Gate)
    requires { (g.count ≤ 256) × (g.count ≤ length names.old) × (g.count ≤ length keys.old) }
    ensures { Listed (take g.count names.new) (take g.count keys.new) g }
{
    for (i, a) in g.accounts[..g.count].iter().enumerate() {
        names[i] = a.number.bytes;
        keys[i] = [
            a.number.len as u64,
            a.kind,
            digest::make_digest(a.number, a.kind),
        ];
    }
}

// The account at i, with a balance of 0.
fn holder_at(names: &[[u8; 30]], keys: &[[u64; 3]], i: usize) -> Account
    requires { (i < length names.now) × (i < length keys.now) }
    ensures { result ≡ holder_at names.now keys.now i }
{
    let [len, kind, _] = keys[i];
    Account {
        number: Number {
            bytes: names[i],
            len: len as usize,
        },
        kind,
        balance: 0,
    }
}

// The first account of this number and type. Most have another digest, and nothing else of them is looked at.
pub fn find(names: &[[u8; 30]], keys: &[[u64; 3]], n: Number, kind: u64) -> Option<usize>
    requires { Keyed names.now keys.now }
    ensures { result ≡ find_account n kind (holders_of names.now keys.now) }
{
    let d = digest::make_digest(n, kind);
    for (i, &[_, _, own]) in keys.iter().enumerate() {
        if own == d && accounts::is_account(n, kind, holder_at(names, keys, i)) {
            return Some(i);
        }
    }
    None
}
