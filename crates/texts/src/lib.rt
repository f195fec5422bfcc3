#![tactic(auto)]
// Bytes and digits: places in a text, texts put into lent buffers, digit fields.
pub mod digits;
pub mod out;
pub mod scan;
