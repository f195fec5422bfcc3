// The words of the vectors: the one place that says what each runs.
use crate::desk::{Desk, Sent};
use crate::{desk, ends};
use book::rows::Entries;
use table::rows::{Table, TableView};
use texts::scan;
use vectors::line;

// Runs a word that both ends take part in, or else one of the gate's or the agent's alone.
pub fn answer(
    word: &[u8],
    text: &[u8],
    entries: &mut Entries<'_>,
    table: &mut Table<'_>,
    d: Desk,
) -> Desk {
    let k = line::place(word, b"ask lose settle gate open draw record");
    let (lost, what, rest) = match k {
        0 => (false, desk::sent_of(text), scan::after_byte(text, b' ')),
        1 => (true, desk::sent_of(text), scan::after_byte(text, b' ')),
        2 => (false, Sent::Registry, text),
        3..=6 => return at_gate(k, text, table.view(), d),
        _ => return at_agent(word, text, entries, d),
    };
    ends::exchange(lost, what, rest, entries, table, d)
}

// Runs a word of the gate's alone, by its place.
fn at_gate(k: usize, text: &[u8], table: TableView<'_>, d: Desk) -> Desk {
    match k {
        3 => ends::start(text, d),
        4 => ends::open(text, table, d),
        5 => ends::draw(text, table, d),
        _ => {
            ends::record(text, table);
            d
        }
    }
}

// Runs a word of the agent's; one that writes is lent as many bytes as are asked for, or one less.
fn at_agent(word: &[u8], text: &[u8], entries: &mut Entries<'_>, d: Desk) -> Desk {
    match line::place(
        word,
        b"accept accept-many answer report payment status cancel check payment-small registry registry-small spoil book freeze entry",
    ) {
        0 => desk::accept(text, entries, d),
        1 => desk::accept_many(text, entries, d),
        2 => {
            let rest = scan::after_byte(text, b' ');
            desk::taken(desk::sent_of(text), rest, entries, d)
        }
        3 => desk::taken(Sent::Registry, text, entries, d),
        4..=7 => desk::write(desk::sent_of(word), 512, text, entries, d),
        8 => desk::write(desk::sent_of(word), 511, text, entries, d),
        9 => desk::write(desk::sent_of(word), 65536, text, entries, d),
        10 => desk::write(desk::sent_of(word), 65535, text, entries, d),
        11 => desk::spoil(text, entries.nums, d),
        12 => desk::start(text, d.gate),
        13 => desk::freeze(text, entries.view(), d),
        14 => desk::entry(text, entries.view(), d),
        _ => {
            io::write_all(1, b"unknown word");
            d
        }
    }
}
