#![tactic(auto)]
// One line of a session: what it does at the gate.
pub mod turn;

use table::Head;

// What a session holds beside its accounts and its table; a closed day starts it.
#[derive(Clone, Copy)]
pub struct ConsoleHead {
    pub started: bool,
    pub head: Head,
}
