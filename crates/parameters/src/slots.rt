// The pieces of the parameters, gathered by their names in one pass.
ghost use Rattle.std.specs.Prelude.{◌≡◌, ◌-◌, ◌<◌, ◌≤◌, length, take, drop, get_or};
ghost use Rattle.coding.specs.Params.{pieces};
ghost use Rattle.parameters.specs.Slots.{Absent, gather_from};
ghost use Rattle.parameters.specs.SlotWalk.{slots_in, scanned, Adds, IsKnown, is_given, clipped_text};

use crate::action;
use coding::url;
use texts::scan;

// What a piece between ampersands is: a known name with its value, which begins at `from`; or one that gives nothing; or one that breaks the text.
#[derive(Clone, Copy)]
enum Piece {
    Value { place: usize, from: usize },
    Nothing,
    Malformed,
}

// The part of a text from one place up to another.
fn part(s: &[u8], from: usize, to: usize) -> &[u8]
    ensures { result.now ≡ take (to - from) (drop from s.now) }
{
    scan::first_bytes(scan::bytes_from(s, from), to.saturating_sub(from))
}

// What the piece from `at` to `end` is.
#[tactic(auto, using(crate::proofs::SlotLaws::read_piece_laws))]
fn read_piece(s: &[u8], at: usize, end: usize) -> Piece
    requires { (at ≤ end) × (end ≤ length s.now) }
    ensures adds { Adds s.now at end result }
    ensures known { IsKnown result }
{
    let p = &s[at..end];
    if p.is_empty() {
        return Piece::Nothing;
    }
    let q = scan::find_byte(p, b'=');
    if p.len() <= q {
        return Piece::Malformed;
    }
    if !url::well_coded(&p[q + 1..]) {
        return Piece::Malformed;
    }
    match action::name_index(&p[..q]) {
        Some(place) => Piece::Value {
            place,
            from: at + q + 1,
        },
        None => Piece::Nothing,
    }
}

// Gathers every piece between ampersands: of each known name the places where its value begins and ends, an end of 0 where it has none. False where a name
// has a value already, or a piece breaks the text.
#[tactic(auto, using(crate::proofs::SlotLaws::gather_laws))]
pub fn gather(s: &[u8], slots: &mut [[usize; 2]]) -> bool
    requires { 7 ≡ length slots.old }
    ensures { scanned s.now result slots.new ≡ gather_from (slots_in s.now slots.old) (pieces s.now) }
{
    let mut at: usize = 0;
    while at < s.len() {
        let end = at + scan::find_byte(&s[at..], b'&');
        match read_piece(s, at, end) {
            Piece::Value { place, from } => {
                if slots[place][1] != 0 {
                    return false;
                }
                slots[place] = [from, end];
            }
            Piece::Nothing => {}
            Piece::Malformed => return false,
        }
        at = end + 1;
    }
    true
}

// Whether the name with place k has a value.
pub fn is_given(slots: &[[usize; 2]], k: usize) -> bool
    requires { (k < 7) × (7 ≡ length slots.now) }
    ensures { result ≡ is_given slots.now k }
{
    slots[k][1] != 0
}

// The value of the name with place k, decoded, where it has 96 bytes or fewer; otherwise nothing. The room is lent for one that is coded.
pub fn text_of<'a>(s: &'a [u8], slots: &[[usize; 2]], k: usize, room: &'a mut [u8]) -> &'a [u8]
    requires { (k < 7) × (7 ≡ length slots.now) × (96 ≡ length room.old) }
    ensures { result.now ≡ clipped_text (get_or (slots_in s.now slots.now) k Absent) }
{
    let held = slots[k];
    url::decoded(part(s, held[0], held[1]), room)
}
