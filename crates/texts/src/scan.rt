// Searching and comparing bytes.
ghost use Rattle.std.specs.Prelude.{◌≡◌, suc, ◌+◌, ◌*◌, ◌<◌, ◌≤◌, not, ◌&&◌, eqb, length, take, drop};
ghost use Rattle.texts.specs.Lists.{find, eq_list};
ghost use Rattle.texts.specs.Words.{word_at, whole_words};

// The index of the first b in s, or its length where there is none.
pub fn find_byte(s: &[u8], b: u8) -> usize
    ensures { result ≡ find b s.now }
{
    s.iter().position(|x| *x == b).unwrap_or(s.len())
}

// Eight bytes from a place on as one word, the first the lowest. The compiler loads them together.
fn word_at(s: &[u8], i: usize) -> u64
    requires { i + 8 ≤ length s.now }
    ensures { result ≡ word_at s.now i }
{
    u64::from_le_bytes([
        s[i],
        s[i + 1],
        s[i + 2],
        s[i + 3],
        s[i + 4],
        s[i + 5],
        s[i + 6],
        s[i + 7],
    ])
}

// Whether the whole words of two slices of one length agree. The step is a word: chunks of eight would not be plainer, since a word is made of an array.
fn words_same(a: &[u8], b: &[u8]) -> bool
    requires { length a.now ≡ length b.now }
    ensures { result ≡ eq_list (whole_words a.now) (whole_words b.now) }
{
    let mut i: usize = 0;
    while i + 8 <= a.len() {
        if word_at(a, i) != word_at(b, i) {
            return false;
        }
        i += 8;
    }
    true
}

// Whether two slices of one length agree from a place on. By `==` of slices, which is not put into its caller, a short text takes longer.
fn rest_same(a: &[u8], b: &[u8], from: usize) -> bool
    requires { length a.now ≡ length b.now }
    ensures { result ≡ eq_list (drop from a.now) (drop from b.now) }
{
    for i in from..a.len() {
        if a[i] != b[i] {
            return false;
        }
    }
    true
}

// Whether two slices hold the same bytes: eight at a time, and the tail singly.
pub fn same_bytes(a: &[u8], b: &[u8]) -> bool
    ensures { result ≡ eq_list a.now b.now }
{
    a.len() == b.len() && words_same(a, b) && rest_same(a, b, a.len() / 8 * 8)
}

// The first n bytes, or all where there are fewer.
pub fn first_bytes(s: &[u8], n: usize) -> &[u8]
    ensures { result.now ≡ take n s.now }
{
    s.get(..n).unwrap_or(s)
}

// The bytes from a place on; none past the end.
pub fn bytes_from(s: &[u8], at: usize) -> &[u8]
    ensures { result.now ≡ drop at s.now }
{
    s.get(at..).unwrap_or(&[])
}

// What stands before the first b, or all.
pub fn before_byte(s: &[u8], b: u8) -> &[u8]
    ensures { result.now ≡ take (find b s.now) s.now }
{
    first_bytes(s, find_byte(s, b))
}

// What stands behind the first b, or nothing.
pub fn after_byte(s: &[u8], b: u8) -> &[u8]
    ensures { result.now ≡ drop (suc (find b s.now)) s.now }
{
    bytes_from(s, find_byte(s, b) + 1)
}

// Whether none of the sixteen bytes from i on is b. Each is tested, whatever the others are, so that the compiler takes many together.
fn none_near(s: &[u8], i: usize, b: u8) -> bool
    requires { i + 16 ≤ length s.now }
    ensures { result ≡ eqb (find b (take 16 (drop i s.now))) 16 }
{
    let mut none = true;
    for j in 0..16 {
        none &= s[i + j] != b;
    }
    none
}

// A place from which the first b is the same as from `at`, found by sixteen bytes at a time.
pub fn pass_others(s: &[u8], at: usize, b: u8) -> usize
    ensures { (at ≤ result) × (at + find b (drop at s.now) ≡ result + find b (drop result s.now)) }
{
    if s.len() < 16 {
        return at;
    }
    let last = s.len() - 16;
    let mut i = at;
    while i <= last && none_near(s, i, b) {
        i += 16;
    }
    i
}
