// The words of the vectors: the one place that says what each runs.
use crate::world::World;
use crate::{gate_vectors, spoil, world};
use table::rows::Table;
use vectors::line;

// Runs the word on its text, and hands back the world.
pub fn answer(word: &[u8], text: &[u8], table: &mut Table<'_>, w: World) -> World {
    match line::place(
        word,
        b"deliver deliver-small settle settle-small open draw open-many spoil gate record",
    ) {
        0 => gate_vectors::deliver(512, text, table, w),
        1 => gate_vectors::deliver(511, text, table, w),
        2 => gate_vectors::settle(512, text, table, w),
        3 => gate_vectors::settle(511, text, table, w),
        4 => gate_vectors::open(text, table, w),
        5 => gate_vectors::draw(text, table, w),
        6 => gate_vectors::open_many(text, table, w),
        7 => spoil::spoil(text, table, w),
        8 => world::started(text),
        9 => {
            gate_vectors::record(text, table.view(), w);
            w
        }
        _ => {
            io::write_all(1, b"unknown word");
            w
        }
    }
}
