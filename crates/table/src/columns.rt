// The accounts in three columns, as C lends them: the bytes of their numbers, the lengths of these with the types, the balances. No account is copied to be looked up.
ghost use Rattle.std.specs.Prelude.{◌≡◌, List, ℕ, ◌+◌, ◌<◌, ◌≤◌, pos, length, get_or, replicate};
ghost use Rattle.table.specs.Accounts.{no_account, accounts_of, find_account, holding_of, gate_balance, opened};
ghost use Rattle.table.specs.Columns.{accounts_in, gate_of, head_of, counted_head, columns_of, columns_in, columns_seen};

use crate::accounts::Holding;
use crate::{ACCOUNTS_MOST, Account, Gate, Head, accounts};
use fields::number::Number;

// The columns as they are lent where balances are moved.
#[derive(Drop)]
pub struct Accounts<'a> {
    pub names: &'a [[u8; 30]; 256],
    pub keys: &'a [[u64; 2]; 256],
    pub balances: &'a mut [i64; 256],
}

// The columns lent to be read.
#[derive(Clone, Copy)]
pub struct AccountsView<'a> {
    pub names: &'a [[u8; 30]; 256],
    pub keys: &'a [[u64; 2]; 256],
    pub balances: &'a [i64; 256],
}

impl Accounts<'_> {
    pub fn view(&self) -> AccountsView<'_>
        ensures { columns_seen result ≡ columns_in self.now }
    {
        AccountsView {
            names: self.names,
            keys: self.keys,
            balances: self.balances,
        }
    }
}

// The account at i.
pub fn account_at(a: AccountsView<'_>, i: usize) -> Account
    requires { i < 256 }
    ensures { result ≡ get_or (accounts_in (columns_seen a.entry)) i no_account }
{
    let [len, kind] = a.keys[i];
    Account {
        number: Number {
            bytes: a.names[i],
            len: len as usize,
        },
        kind,
        balance: a.balances[i],
    }
}

// The first account of this number and type, with its balance.
pub fn look_up(all: AccountsView<'_>, h: Head, n: Number, kind: u64) -> Holding
    requires { h.count ≤ 256 }
    ensures { result ≡ holding_of (gate_of h (columns_seen all.entry)) (find_account n kind (accounts_of (gate_of h (columns_seen all.entry)))) }
{
    for i in 0..h.count {
        let a = account_at(all, i);
        if accounts::is_account(n, kind, a) {
            return Holding {
                at: Some(i),
                balance: a.balance,
            };
        }
    }
    Holding {
        at: None,
        balance: 0,
    }
}

// The first account of this number and type.
pub fn find_account(all: AccountsView<'_>, h: Head, n: Number, kind: u64) -> Option<usize>
    requires { h.count ≤ 256 }
    ensures { result ≡ find_account n kind (accounts_of (gate_of h (columns_seen all.entry))) }
{
    look_up(all, h, n, kind).at
}

// Columns in which nothing stands yet.
pub fn empty_names() -> [[u8; 30]; 256]
    ensures { (256 ≡ length result) × (result ≡ replicate 256 (replicate 30 0)) }
{
    [[0u8; 30]; 256]
}

pub fn empty_keys() -> [[u64; 2]; 256]
    ensures { (256 ≡ length result) × (result ≡ replicate 256 (replicate 2 0)) }
{
    [[0u64; 2]; 256]
}

pub fn empty_balances() -> [i64; 256]
    ensures { (256 ≡ length result) × (result ≡ replicate 256 (pos 0)) }
{
    [0i64; 256]
}

// A gate but for its accounts.
pub fn head_of(g: Gate) -> Head
    ensures { result ≡ head_of g }
{
    Head {
        count: g.count,
        closed: g.closed,
        used: g.used,
    }
}

// Puts the accounts of a gate into columns.
pub fn unpack(g: Gate, names: &mut [[u8; 30]], keys: &mut [[u64; 2]], balances: &mut [i64])
    requires { (256 ≡ length names.old) × (256 ≡ length keys.old) × (256 ≡ length balances.old) }
    ensures { gate_of (head_of g) (columns_of names.new keys.new balances.new) ≡ g }
{
    for (i, a) in g.accounts.iter().enumerate() {
        names[i] = a.number.bytes;
        keys[i] = [a.number.len as u64, a.kind];
        balances[i] = a.balance;
    }
}

// The gate of a head and columns.
pub fn pack(h: Head, all: AccountsView<'_>) -> Gate
    ensures { result ≡ gate_of h (columns_seen all.entry) }
{
    let first = account_at(all, 0);
    let mut accounts = [first; 256];
    for i in 1..ACCOUNTS_MOST {
        accounts[i] = account_at(all, i);
    }
    Gate {
        accounts,
        count: h.count,
        closed: h.closed,
        used: h.used,
    }
}

// Puts a balance at place i.
pub fn put_balance(balances: &mut [i64], i: usize, z: i64)
    requires { (256 ≡ length balances.old) × (i < 256) }
    ensures { (h : Head) (names keys : List (List ℕ)) → gate_of h (columns_of names keys balances.new) ≡ gate_balance (gate_of h (columns_of names keys balances.old)) i z }
{
    balances[i] = z;
}

// Puts an account with a balance of 0 at place i, the next.
pub fn put_account(
    names: &mut [[u8; 30]],
    keys: &mut [[u64; 2]],
    balances: &mut [i64],
    i: usize,
    n: Number,
    kind: u64,
)
    requires { (256 ≡ length names.old) × (256 ≡ length keys.old) × (256 ≡ length balances.old) × (i < 256) }
    ensures { (h : Head) → h.count ≡ i → gate_of (counted_head h (i + 1)) (columns_of names.new keys.new balances.new) ≡ opened (gate_of h (columns_of names.old keys.old balances.old)) n kind }
{
    let Number { bytes, len } = n;
    names[i] = bytes;
    keys[i] = [len as u64, kind];
    balances[i] = 0;
}
