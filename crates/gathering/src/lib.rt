#![tactic(auto)]
// What is held of a line of the session's input, gathered from parts of any size.
ghost use Rattle.std.specs.Prelude.{◌≡◌, drop, replicate};
ghost use Rattle.gathering.specs.Held.{new_mark, held_of};
ghost use Rattle.gathering.specs.Gather.{asks_at, step_of, gathered, gathered_of};

use texts::scan;

// How many bytes of a field are held: one more than the longest form of any has.
const FIELD_HELD: usize = 31;

// How many bytes of the parameters of an R are held: one more than are looked at.
const PARAMS_HELD: usize = 2049;

// How many spaces that split fields are held: a fifth field is one too many.
const SPACES_HELD: usize = 4;

// How many bytes of a line are held.
const LINE_HELD: usize = 2177;

// Where a held line stands: how many of its bytes are held, how many spaces that split fields, and how many bytes of the last field. The bytes themselves are lent.
#[derive(Clone, Copy)]
pub struct Mark {
    pub len: usize,
    pub spaces: usize,
    pub run: usize,
}

// Where a held line stands, where the input is read on, and whether the line has ended. The first two count in either case, so an Option would not be plainer.
#[derive(Clone, Copy)]
pub struct Gathered {
    pub mark: Mark,
    pub at: usize,
    pub ended: bool,
}

// Whether the parameters of an R have begun.
#[tactic(auto, unfolding(crate::specs::Gather::asks_at))]
fn asks(first: u8, spaces: usize) -> bool
    ensures { result ≡ asks_at first spaces }
{
    first == b'R' && 2 <= spaces
}

// Where a line that begins with `first` stands with the byte b more, or None where the byte is not held.
#[tactic(auto, unfolding(crate::specs::Gather::step_of))]
fn step_of(first: u8, m: Mark, b: u8) -> Option<Mark>
    ensures { result ≡ step_of first m b }
{
    if LINE_HELD <= m.len {
        return None;
    }
    let len = m.len + 1;
    if asks(first, m.spaces) {
        if m.run < PARAMS_HELD {
            return Some(Mark {
                len,
                run: m.run + 1,
                ..m
            });
        }
    } else if b == b' ' {
        if m.spaces < SPACES_HELD {
            return Some(Mark {
                len,
                spaces: m.spaces + 1,
                run: 0,
            });
        }
    } else if m.run < FIELD_HELD {
        return Some(Mark {
            len,
            run: m.run + 1,
            ..m
        });
    }
    None
}

// Takes the bytes of the input from `at` on up to the first 0A, which is passed over, or to its end.
pub fn gather(bytes: &mut [u8; 2177], m: Mark, input: &[u8], at: usize) -> Gathered
    ensures { gathered_of result bytes.new ≡ gathered (held_of bytes.old m) (drop at input.now) at }
{
    let mut mark = m;
    let rest = scan::bytes_from(input, at);
    for (i, b) in rest.iter().enumerate() {
        if *b == b'\n' {
            return Gathered {
                mark,
                at: at + i + 1,
                ended: true,
            };
        }
        if let Some(longer) = step_of(bytes[0], mark, *b) {
            bytes[mark.len] = *b;
            mark = longer;
        }
    }
    Gathered {
        mark,
        at: at + rest.len(),
        ended: false,
    }
}

// A new line: nothing of it is held.
pub fn new_mark() -> Mark
    ensures { result ≡ new_mark }
{
    Mark {
        len: 0,
        spaces: 0,
        run: 0,
    }
}

// The bytes that lines are held in, before the first.
pub fn new_bytes() -> [u8; 2177]
    ensures { result ≡ replicate 2177 0 }
{
    [0u8; 2177]
}
