#![tactic(auto)]
// Places by slots: chains of the places whose keys fall into one slot, rising. A link is a place and one, 0 is none.
ghost use Rattle.std.specs.Prelude.{◌≡◌, ℕ, ◌+◌, ◌<◌, length, get_or, set};
ghost use Rattle.index.specs.Index.{slot_of};

// A head for each slot, and no chain yet.
pub fn no_heads() -> [u16; 8192]
    ensures { (length result ≡ 8192) × ((s : ℕ) → get_or result s 0 ≡ 0) }
{
    [0u16; 8192]
}

// A link for each place, none set.
pub fn no_links() -> [u16; 4096]
    ensures { 4096 ≡ length result }
{
    [0u16; 4096]
}

// The slot of a key.
#[tactic(auto, unfolding(crate::specs::Index::slot_of))]
fn slot(key: u64) -> usize
    ensures { (result ≡ slot_of key) × (result < 8192) }
{
    let halves = key % 4294967296 + key / 4294967296;
    (halves * 1640531527 / 524288 % 8192) as usize
}

// The link to the first place of a key's slot.
pub fn first(heads: &[u16], key: u64) -> usize
    requires { length heads.now ≡ 8192 }
    ensures { result ≡ get_or heads.now (slot_of key) 0 }
{
    usize::from(heads[slot(key)])
}

// The link behind place i.
pub fn after(next: &[u16], i: usize) -> usize
    requires { i < length next.now }
    ensures { result ≡ get_or next.now i 0 }
{
    usize::from(next[i])
}

// Puts place i before the others of its key's slot.
pub fn push(heads: &mut [u16], next: &mut [u16], i: usize, key: u64)
    requires { (length heads.old ≡ 8192) × (i < length next.old) × (i < 4096) }
    ensures heads_after { heads.new ≡ set heads.old (slot_of key) (i + 1) }
    ensures next_after { next.new ≡ set next.old i (get_or heads.old (slot_of key) 0) }
{
    let s = slot(key);
    next[i] = heads[s];
    heads[s] = (i + 1) as u16;
}

// Puts place i behind k, the last of its chain.
pub fn join(next: &mut [u16], k: usize, i: usize)
    requires { (k < length next.old) × (i < length next.old) × (i < 4096) }
    ensures { next.new ≡ set (set next.old i 0) k (i + 1) }
{
    next[i] = 0;
    next[k] = (i + 1) as u16;
}
