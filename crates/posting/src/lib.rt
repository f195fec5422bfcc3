#![tactic(auto)]
// One line of a registry: which record it matches, the verdict on it, and what it does to the table.
pub mod applying;
pub mod lookup;
pub mod matching;
pub mod verdict;
