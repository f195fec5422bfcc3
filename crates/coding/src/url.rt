// Url coding: `%` and two hexadecimal digits stand for a byte.
ghost use Rattle.std.specs.Prelude.{◌&&◌, ◌≡◌, ◌<◌, leb, drop, length};
ghost use Rattle.texts.specs.Lists.{written, cursor_after};
ghost use Rattle.coding.specs.Url.{is_hex, hex_value, well_coded, decoded_into, decoded_count, decoded_within, is_plain, hex_digit, coded_byte, coded};
ghost use Rattle.coding.specs.Units.{unit_of, code_size};

use texts::{out, scan};

// What stands at a place of coded text: the byte, how many bytes code it, and whether they may. No Option: decoding takes the byte of a lone `%` too.
#[derive(Clone, Copy)]
pub(crate) struct Unit {
    pub byte: u8,
    pub len: usize,
    pub good: bool,
}

// Whether a byte is a hexadecimal digit.
#[tactic(auto, unfolding(crate::specs::Url::is_hex))]
pub fn is_hex(b: u8) -> bool
    ensures { result ≡ is_hex b }
{
    b.is_ascii_hexdigit()
}

// The value of a hexadecimal digit, 0 of any other byte.
#[tactic(auto, unfolding(crate::specs::Url::hex_value))]
pub fn hex_value(b: u8) -> u8
    ensures { result ≡ hex_value b }
{
    match b {
        b'0'..=b'9' => b - b'0',
        b'A'..=b'F' => b - b'A' + 10,
        b'a'..=b'f' => b - b'a' + 10,
        _ => 0,
    }
}

// The unit at a place of coded text: a `%` with two bytes behind it takes these too.
#[tactic(auto, using(crate::proofs::UnitLaws::unit_plain))]
pub(crate) fn unit_at(s: &[u8], i: usize) -> Unit
    requires { i < length s.now }
    ensures { result ≡ unit_of (drop i s.now) }
{
    let b = s[i];
    if b != b'%' {
        return Unit {
            byte: b,
            len: 1,
            good: true,
        };
    }
    if s.len() - i < 3 {
        return Unit {
            byte: b,
            len: 1,
            good: false,
        };
    }
    let h = s[i + 1];
    let l = s[i + 2];
    Unit {
        byte: hex_value(h) * 16 + hex_value(l),
        len: 3,
        good: is_hex(h) && is_hex(l),
    }
}

// Whether each `%` has two hexadecimal digits behind it.
pub fn well_coded(s: &[u8]) -> bool
    ensures { result ≡ well_coded s.now }
{
    let mut i: usize = 0;
    while i < s.len() {
        let u = unit_at(s, i);
        if !u.good {
            return false;
        }
        i += u.len;
    }
    true
}

// Decodes a text into a buffer that has room for it, and hands back how many bytes it gave.
pub fn decode(s: &[u8], dst: &mut [u8]) -> usize
    ensures { (result ≡ decoded_count dst.old s.now) × (dst.new ≡ decoded_into dst.old s.now) }
{
    if dst.len() < s.len() {
        return 0;
    }
    let mut i: usize = 0;
    let mut j: usize = 0;
    while i < s.len() {
        let u = unit_at(s, i);
        dst[j] = u.byte;
        i += u.len;
        j += 1;
    }
    j
}

// A text decoded: itself where nothing of it is coded, otherwise in the room; nothing where that is shorter than the text.
pub fn decoded<'a>(s: &'a [u8], room: &'a mut [u8]) -> &'a [u8]
    ensures { result.now ≡ decoded_within (length room.old) s.now }
{
    if room.len() < s.len() {
        return &s[..0];
    }
    if !s.contains(&b'%') {
        return s;
    }
    let n = decode(s, room);
    scan::first_bytes(room, n)
}

// Whether a byte stands for itself in coded text.
#[tactic(auto, unfolding(crate::specs::Url::is_plain))]
fn is_plain(b: u8) -> bool
    ensures { result ≡ is_plain b }
{
    b.is_ascii_alphanumeric() || matches!(b, b'-' | b'.' | b':')
}

// The capital hexadecimal digit of a value below 16.
pub(crate) fn hex_digit(v: u8) -> u8
    requires { v < 16 }
    ensures { result ≡ hex_digit v }
{
    if v < 10 { b'0' + v } else { b'A' + v - 10 }
}

// How many bytes code a byte.
pub(crate) fn code_size(b: u8) -> usize
    ensures { result ≡ code_size b }
{
    if is_plain(b) { 1 } else { 3 }
}

// Whether bytes have room url-coded.
pub(crate) fn has_room(src: &[u8], room: usize) -> bool
    ensures { result ≡ leb (length (coded src.now)) room }
{
    let mut left = room;
    for b in src {
        let n = code_size(*b);
        if left < n {
            return false;
        }
        left -= n;
    }
    true
}

// Writes one byte url-coded at the cursor, where it has room.
pub(crate) fn write_byte(b: u8, dst: &mut [u8], at: usize) -> usize
    ensures { (result ≡ cursor_after dst.old at (coded_byte b)) × (dst.new ≡ written dst.old at (coded_byte b)) }
{
    if is_plain(b) {
        out::put_bytes(&[b], dst, at)
    } else {
        out::put_bytes(&[b'%', hex_digit(b / 16), hex_digit(b % 16)], dst, at)
    }
}

// Writes bytes url-coded at the cursor, where they have room.
pub fn write_coded(src: &[u8], dst: &mut [u8], at: usize) -> usize
    ensures { (result ≡ cursor_after dst.old at (coded src.now)) × (dst.new ≡ written dst.old at (coded src.now)) }
{
    if dst.len() < at || !has_room(src, dst.len() - at) {
        return at;
    }
    let mut p = at;
    for b in src {
        p = write_byte(*b, dst, p);
    }
    p
}
