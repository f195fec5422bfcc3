// A load, written into a lent buffer.
ghost use Rattle.std.specs.Prelude.{◌≡◌, length};
ghost use Rattle.workload.specs.Given.{load_of, GoodLoad};
ghost use Rattle.workload.specs.Load.{steps_within, filled_of, filled_by, write_steps, write_load};

use crate::{given, line};

// What a call wrote: its code, how many bytes and steps, and the value that a second call goes on from. A malformed load (60) tells its start too. The code is a number, as the claims of workload_theorems speak of it.
#[derive(Clone, Copy)]
pub struct Written {
    pub code: u64,
    pub size: usize,
    pub steps: u64,
    pub next: u64,
}

// Writes the lines of a load that is well formed, until so many are written or one does not fit.
#[tactic(auto, using(crate::proofs::LoadLaws::fill_laws))]
fn fill(
    names: &[[u8; 30]],
    keys: &[[u64; 2]],
    start: u64,
    date: [u8; 19],
    reason: u64,
    most: u64,
    dst: &mut [u8],
) -> Written
    requires { GoodLoad (load_of date reason names.now keys.now) }
    ensures { filled_of result dst.new ≡ filled_by (load_of date reason names.now keys.now) start dst.old
        (steps_within (load_of date reason names.now keys.now) most (length dst.old) start) }
{
    let count = names.len() as u64;
    let mut value = start;
    let mut at: usize = 0;
    for steps in 0..most {
        let r = generator::rolls_from(value);
        let a = given::account_at(names, keys, (r.account % count) as usize);
        let e = line::write_line(date, reason, a, r, dst, at);
        if e == at {
            return Written {
                code: 0,
                size: at,
                steps,
                next: value,
            };
        }
        value = r.next;
        at = e;
    }
    Written {
        code: 0,
        size: at,
        steps: most,
        next: value,
    }
}

// Writes the first steps of a load, at most so many.
#[tactic(auto, unfolding(crate::specs::Load::write_steps))]
pub fn write_steps(
    names: &[[u8; 30]],
    keys: &[[u64; 2]],
    start: u64,
    date: [u8; 19],
    reason: u64,
    most: u64,
    dst: &mut [u8],
) -> Written
    ensures { filled_of result dst.new ≡ write_steps (load_of date reason names.now keys.now) most start dst.old }
{
    if !given::is_load(names, keys, date, reason) {
        return Written {
            code: 60,
            size: 0,
            steps: 0,
            next: start,
        };
    }
    fill(names, keys, start, date, reason, most, dst)
}

// Writes all the steps of a load that the buffer holds.
#[tactic(auto, unfolding(crate::specs::Load::write_load))]
pub fn write_load(
    names: &[[u8; 30]],
    keys: &[[u64; 2]],
    start: u64,
    date: [u8; 19],
    reason: u64,
    dst: &mut [u8],
) -> Written
    ensures { filled_of result dst.new ≡ write_load (load_of date reason names.now keys.now) start dst.old }
{
    write_steps(names, keys, start, date, reason, dst.len() as u64, dst)
}
