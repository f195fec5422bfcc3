#![tactic(auto)]
// The agent's days: frozen one after the other, and a date that is frozen.
pub mod freezing;
pub mod frozen;

// What a writing gives: `size` bytes of the buffer hold its text, none with a fault. C gets it so (`roosteryore_write_check`).
#[repr(C)]
#[derive(Clone, Copy)]
pub struct Writing {
    pub code: u64,
    pub size: usize,
}
