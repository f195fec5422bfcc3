// The words of the vectors: the one place that says what each runs.
use crate::{
    answer_vectors, asked_vectors, coding_vectors, day_vectors, digit_vectors, number_vectors,
    print, registry_vectors, request_vectors, write_vectors,
};
use fields::{amount, codes};
use texts::digits;
use vectors::line;

// Runs the word on its text: fields, days, and writers into a lent buffer.
pub fn answer(word: &[u8], text: &[u8]) {
    match line::place(
        word,
        b"digits20 amount receipt type reason number same date day next before write-amount write-digits put",
    ) {
        0 => digit_vectors::digits20(text),
        1 => print::value_or_fault(amount::read_amount(text), 3),
        2 => print::value_or_fault(codes::read_receipt(text), 4),
        3 => print::value_or_fault(codes::read_kind(text), 2),
        4 => print::value_or_fault(codes::read_reason(text), 32),
        5 => number_vectors::number(text),
        6 => number_vectors::same(text),
        7 => day_vectors::written_date(text),
        8 => day_vectors::day(text),
        9 => day_vectors::next(text),
        10 => day_vectors::before(text),
        11 => write_vectors::write_value(text, amount::write_amount),
        12 => write_vectors::write_value(text, digits::write_digits),
        13 => write_vectors::put(text),
        _ => answer_message(word, text),
    }
}

// Parameters, requests, answers, registries and reports.
fn answer_message(word: &[u8], text: &[u8]) {
    match line::place(
        word,
        b"parameters coded decoded request long-request write-request write-request-at answer long-answer write-answer registry many-lines report",
    ) {
        0 => coding_vectors::parameters(text),
        1 => coding_vectors::coded(text),
        2 => coding_vectors::decoded(text),
        3 => request_vectors::request(text),
        4 => request_vectors::long_request(text),
        5 => asked_vectors::write_request(text),
        6 => asked_vectors::write_request_at(text),
        7 => answer_vectors::answer(text),
        8 => answer_vectors::long_answer(text),
        9 => answer_vectors::write_answer(text),
        10 => registry_vectors::check(text),
        11 => registry_vectors::many_lines(text),
        12 => registry_vectors::is_report(text),
        _ => {
            io::write_all(1, b"unknown word");
        }
    }
}
