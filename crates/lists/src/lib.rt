#![tactic(auto)]
// Places in lists: what a search gives, and how the rows of a table or a book are lent.
pub mod rows;

// How many places a table or a book has at most.
pub const PLACES_MOST: usize = 4096;
