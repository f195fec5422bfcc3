// What a load is made of, and whether all of it is well formed.
ghost use Rattle.std.specs.Prelude.{◌≡◌, true, ◌<◌, length};
ghost use Rattle.lists.specs.Lists.{all_from};
ghost use Rattle.workload.specs.Given.{is_account_name, account_at, accounts_of, load_of, is_load, GoodLoad};

use dates::date;
use fields::codes;
use fields::number::Number;

// How many accounts a load has at most.
const ACCOUNTS_MOST: usize = 256;

// What names an account: its number and type.
#[derive(Clone, Copy)]
pub struct AccountName {
    pub number: Number,
    pub kind: u64,
}

// The account at i.
pub(crate) fn account_at(names: &[[u8; 30]], keys: &[[u64; 2]], i: usize) -> AccountName
    requires { (i < length names.now) × (i < length keys.now) }
    ensures { result ≡ account_at names.now keys.now i }
{
    let [len, kind] = keys[i];
    let number = Number {
        bytes: names[i],
        len: len as usize,
    };
    AccountName { number, kind }
}

// Whether number and type are well formed.
#[tactic(auto, unfolding(crate::specs::Given::is_account_name))]
fn is_account_name(a: AccountName) -> bool
    ensures { result ≡ is_account_name a }
{
    a.number.is_valid() && codes::is_kind(a.kind)
}

// Whether each account is well formed.
#[tactic(auto, using(crate::proofs::GivenLaws::accounts_good_laws))]
fn accounts_good(names: &[[u8; 30]], keys: &[[u64; 2]]) -> bool
    requires { length keys.now ≡ length names.now }
    ensures { result ≡ all_from (λ i a. is_account_name a) 0 (accounts_of names.now keys.now) }
{
    for i in 0..names.len() {
        if !is_account_name(account_at(names, keys, i)) {
            return false;
        }
    }
    true
}

// Whether date, reason and accounts are well formed, and the accounts 1 to 256.
#[tactic(auto, using(crate::proofs::GivenLaws::is_load_laws), unfolding(crate::specs::Given::is_load))]
pub(crate) fn is_load(names: &[[u8; 30]], keys: &[[u64; 2]], date: [u8; 19], reason: u64) -> bool
    ensures value { result ≡ is_load (load_of date reason names.now keys.now) }
    ensures good_load { result ≡ true → GoodLoad (load_of date reason names.now keys.now) }
{
    date::is_written(date)
        && codes::is_reason(reason)
        && (1..=ACCOUNTS_MOST).contains(&names.len())
        && keys.len() == names.len()
        && accounts_good(names, keys)
}
