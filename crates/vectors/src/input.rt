// The standard input of a program of vectors.
ghost use Rattle.io.specs.Counts.{IsPrefixLen};

// Reads all of it and tells how many bytes it has; one that fills the buffer is told to be too long, and none of it is taken.
pub fn read_all(buffer: &mut [u8]) -> usize
    ensures { IsPrefixLen result buffer.new }
{
    let n = io::read_full(0, buffer);
    if n == buffer.len() {
        io::write_all(1, b"the input is too long\n");
        return 0;
    }
    n
}
