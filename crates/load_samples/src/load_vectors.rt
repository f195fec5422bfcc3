// The call: START DATE REASON MOST ROOM NAMES KEYS, then two accounts, NUMBER TYPE each. Of 257 rows the second has the second account, each other one the first;
// so many names and keys are lent, and a buffer of so many points. MOST is `all`, or how many steps at most.
ghost use Rattle.std.specs.Prelude.{◌≡◌, length};

use line_fields::field_at;
use vectors::{given, show};
use workload::load;
use workload::load::Written;

// A column of 257 rows.
fn column<T: Copy>(first: T, second: T) -> [T; 257]
    ensures { length result ≡ 257 }
{
    let mut rows = [first; 257];
    rows[1] = second;
    rows
}

// An account's name and key: the bytes of its number, and their count and the type.
fn account(number: &[u8], kind: &[u8]) -> ([u8; 30], [u64; 2]) {
    let n = given::number(number);
    let name = n.bytes;
    (name, [n.len as u64, given::value(kind)])
}

// Makes the call that the field MOST asks for.
fn write(text: &[u8], names: &[[u8; 30]], keys: &[[u64; 2]], dst: &mut [u8]) -> Written {
    let start = given::value(field_at(text, 0));
    let date = given::date(field_at(text, 1));
    let reason = given::value(field_at(text, 2));
    match field_at(text, 3) {
        b"all" => load::write_load(names, keys, start, date, reason, dst),
        most => load::write_steps(names, keys, start, date, reason, given::value(most), dst),
    }
}

// Makes the call; prints code, bytes, steps, the next value, and the whole buffer.
fn run(text: &[u8], names: &[[u8; 30]], keys: &[[u64; 2]], dst: &mut [u8]) {
    let w = write(text, names, keys, dst);
    for n in [w.code, w.size as u64, w.steps, w.next] {
        io::print_decimal(1, n);
        io::write_all(1, b" ");
    }
    show::bytes(dst);
}

// Lends the columns and the buffer that the fields ask for.
pub fn load(text: &[u8]) {
    let (name, key) = account(field_at(text, 7), field_at(text, 8));
    let (second_name, second_key) = account(field_at(text, 9), field_at(text, 10));
    let names = column(name, second_name);
    let keys = column(key, second_key);
    let room = (given::value(field_at(text, 4)) as usize).min(512);
    let n = (given::value(field_at(text, 5)) as usize).min(257);
    let k = (given::value(field_at(text, 6)) as usize).min(257);
    let mut space = [b'.'; 512];
    run(text, &names[..n], &keys[..k], &mut space[..room]);
}
