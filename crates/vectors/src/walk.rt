// The walk over the lines of the input.
use crate::line;
use line_fields::lines;

// Prints each line of s, and behind one that is no heading `: ` and what `answer` prints for it; a last line without its end is a line too.
pub fn answer_lines<F: FnMut(&[u8])>(s: &[u8], mut answer: F)
    requires { F.IsAlwaysCallable answer }
{
    let mut at: usize = 0;
    while at < s.len() {
        let line = lines::line_at(s, at);
        io::write_all(1, line);
        if !line::is_heading(line) {
            io::write_all(1, b": ");
            answer(line);
        }
        io::write_all(1, b"\n");
        at = lines::next_line(s, at);
    }
}
