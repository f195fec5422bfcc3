// The states of an entry by their numbers.
ghost use Rattle.std.specs.Prelude.{◌≡◌};
ghost use Rattle.book.specs.Entries.{state_of, state_number};

use crate::State;

// A number that is none of the first four is the last.
impl From<u64> for State {
    ghost from_gives = { λ n s. s ≡ state_of n };

    #[tactic(auto, unfolding(crate::specs::Entries::state_of))]
    fn from(n: u64) -> Self {
        match n {
            1 => State::Asked,
            2 => State::Credited,
            3 => State::CancelAsked,
            4 => State::Cancelled,
            _ => State::Unposted,
        }
    }
}

impl From<State> for u64 {
    ghost from_gives = { λ s n. n ≡ state_number s };

    #[tactic(auto, unfolding(crate::specs::Entries::state_number))]
    fn from(s: State) -> Self {
        match s {
            State::Asked => 1,
            State::Credited => 2,
            State::CancelAsked => 3,
            State::Cancelled => 4,
            State::Unposted => 5,
        }
    }
}

// The state of a number.
pub fn state_of(n: u64) -> State
    ensures { result ≡ state_of n }
{
    State::from(n)
}

// The number of a state.
pub fn state_number(s: State) -> u64
    ensures { result ≡ state_number s }
{
    u64::from(s)
}
