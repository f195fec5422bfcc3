#![tactic(auto)]
// The values that a load is drawn from: multiplication and addition modulo 2^64, and four rolls a step.
ghost use Rattle.std.specs.Prelude.{◌≡◌, ◌*◌, ◌%◌, ◌^◌};
ghost use Rattle.generator.specs.Generator.{next_value, roll_of, rolls_from};

const FACTOR: u64 = 6364136223846793005;

const INCREMENT: u64 = 1442695040888963407;

// The rolls of one step, and the value that the next step goes on from.
#[derive(Clone, Copy)]
pub struct Rolls {
    pub step: u64,
    pub account: u64,
    pub receipt: u64,
    pub kopecks: u64,
    pub next: u64,
}

// a * b modulo 2^64.
pub fn product(a: u64, b: u64) -> u64
    ensures { result ≡ (a * b) % 2 ^ 64 }
{
    a.wrapping_mul(b)
}

// The value after v.
#[tactic(auto, unfolding(crate::specs::Generator::next_value))]
pub fn next_value(v: u64) -> u64
    ensures { result ≡ next_value v }
{
    product(v, FACTOR).wrapping_add(INCREMENT)
}

// The upper 32 bits of a value.
#[tactic(auto, unfolding(crate::specs::Generator::roll_of))]
pub fn roll_of(v: u64) -> u64
    ensures { result ≡ roll_of v }
{
    v >> 32
}

// Four values after v are the rolls of a step, whatever it uses of them.
#[tactic(auto, unfolding(crate::specs::Generator::rolls_from, crate::specs::Generator::value_after))]
pub fn rolls_from(v: u64) -> Rolls
    ensures { result ≡ rolls_from v }
{
    let first = next_value(v);
    let second = next_value(first);
    let third = next_value(second);
    let fourth = next_value(third);
    Rolls {
        step: roll_of(first),
        account: roll_of(second),
        receipt: roll_of(third),
        kopecks: roll_of(fourth),
        next: fourth,
    }
}
