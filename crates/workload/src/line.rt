// One step of a load, and its line.
ghost use Rattle.std.specs.Prelude.{◌≡◌, [], ◌∷◌, ◌++◌};
ghost use Rattle.texts.specs.Lists.{written, cursor_after};
ghost use Rattle.request_writer.specs.Writes.{buffer_all, cursor_all};
ghost use Rattle.workload.specs.Lines.{step_of, receipt_of, kopecks_of, asked_of, step_text};
ghost use Rattle.workload.specs.LineWalk.{head_texts, ask_texts, figure_texts, draw_texts, step_texts};

use crate::given::AccountName;
use fields::number::Number;
use generator::Rolls;
use message::request::Asked;
use payments::Action;
use request_writer::write;
use texts::{digits, out, scan};

// What a step does: a request of this action, or a drawing.
#[derive(Clone, Copy)]
pub enum Step {
    Asks(Action),
    Draws,
}

// The step that a roll picks.
#[tactic(auto, unfolding(crate::specs::Lines::step_of))]
fn step_of(roll: u64) -> Step
    ensures { result ≡ step_of roll }
{
    match roll % 8 {
        0..=3 => Step::Asks(Action::Payment),
        4 | 5 => Step::Asks(Action::Status),
        6 => Step::Asks(Action::Cancel),
        _ => Step::Draws,
    }
}

fn receipt_of(r: Rolls) -> u64
    ensures { result ≡ receipt_of r }
{
    1 + r.receipt % 1000
}

fn kopecks_of(r: Rolls) -> u64
    ensures { result ≡ kopecks_of r }
{
    1 + r.kopecks % 100000
}

// The request of a step.
#[tactic(auto, unfolding(crate::specs::Lines::asked_of))]
fn asked_of(date: [u8; 19], reason: u64, a: AccountName, r: Rolls, action: Action) -> Asked
    ensures { result ≡ asked_of date reason a r action }
{
    let AccountName { number, kind } = a;
    Asked {
        action,
        number,
        kind,
        amount: kopecks_of(r),
        receipt: receipt_of(r),
        date,
        reason,
    }
}

// A letter, a field and a space.
#[tactic(auto, using(crate::proofs::LineLaws::write_head_laws))]
fn write_head(letter: &[u8], field: &[u8], dst: &mut [u8], at: usize) -> usize
    ensures { (result ≡ cursor_all (head_texts letter.now field.now) dst.old at)
        × (dst.new ≡ buffer_all (head_texts letter.now field.now) dst.old at) }
{
    let p = out::put_bytes(letter, dst, at);
    let e = out::put_bytes(field, dst, p);
    out::put_bytes(b" ", dst, e)
}

// R, the clock and the parameters.
#[tactic(auto, using(crate::proofs::LineLaws::write_ask_laws))]
fn write_ask(clock: [u8; 19], q: Asked, dst: &mut [u8], at: usize) -> usize
    ensures { (result ≡ cursor_all (ask_texts clock q) dst.old at) × (dst.new ≡ buffer_all (ask_texts clock q) dst.old at) }
{
    let p = write_head(b"R ", &clock, dst, at);
    let e = write::write_request(q, dst, p);
    out::put_bytes(b"\n", dst, e)
}

// A number's digits, and what ends them.
#[tactic(auto, using(crate::proofs::LineLaws::write_figure_laws))]
fn write_figure(n: u64, end: &[u8], dst: &mut [u8], at: usize) -> usize
    ensures { (result ≡ cursor_all (figure_texts n end.now) dst.old at) × (dst.new ≡ buffer_all (figure_texts n end.now) dst.old at) }
{
    let p = digits::write_digits(n, dst, at);
    out::put_bytes(end, dst, p)
}

// D, the number, the type and the kopecks.
#[tactic(auto, using(crate::proofs::LineLaws::write_draw_laws))]
fn write_draw(n: Number, kind: u64, kopecks: u64, dst: &mut [u8], at: usize) -> usize
    ensures { (result ≡ cursor_all (draw_texts n kind kopecks) dst.old at) × (dst.new ≡ buffer_all (draw_texts n kind kopecks) dst.old at) }
{
    let p = write_head(b"D ", scan::first_bytes(&n.bytes, n.len), dst, at);
    let e = write_figure(kind, b" ", dst, p);
    write_figure(kopecks, b"\n", dst, e)
}

// A step's line, text by text.
#[tactic(auto, using(crate::proofs::LineLaws::write_step_laws))]
fn write_step(
    date: [u8; 19],
    reason: u64,
    a: AccountName,
    r: Rolls,
    dst: &mut [u8],
    at: usize,
) -> usize
    ensures { (result ≡ cursor_all (step_texts date reason a r (step_of r.step)) dst.old at)
        × (dst.new ≡ buffer_all (step_texts date reason a r (step_of r.step)) dst.old at) }
{
    match step_of(r.step) {
        Step::Asks(action) => write_ask(date, asked_of(date, reason, a, r, action), dst, at),
        Step::Draws => write_draw(a.number, a.kind, kopecks_of(r), dst, at),
    }
}

// Writes a step's line at the cursor, whole with its 0A, where it has room.
pub(crate) fn write_line(
    date: [u8; 19],
    reason: u64,
    a: AccountName,
    r: Rolls,
    dst: &mut [u8],
    at: usize,
) -> usize
    ensures { (result ≡ cursor_after dst.old at (step_text date reason a r (step_of r.step) ++ (10 ∷ [])))
        × (dst.new ≡ written dst.old at (step_text date reason a r (step_of r.step) ++ (10 ∷ []))) }
{
    let mut text = [0u8; 256];
    let n = write_step(date, reason, a, r, &mut text, 0);
    out::put_bytes(scan::first_bytes(&text, n), dst, at)
}
