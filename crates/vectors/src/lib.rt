#![tactic(auto)]
// What the programs of vectors share: their input and the words of its lines, what fields give, bytes escaped and shown, and a gate without accounts.
pub mod escape;
pub mod given;
pub mod input;
pub mod line;
pub mod show;
pub mod walk;
