// Standard input as a whole.
ghost use Rattle.io.specs.Counts.{IsPrefixLen};

// The number of standard input.
const STDIN_FILENO: i32 = 0;

// Reads standard input into the front of buf, until that is full or the input ends, and gives how many bytes there are.
pub fn read_input(buf: &mut [u8]) -> usize
    ensures { IsPrefixLen result buf.new }
{
    io::read_full(STDIN_FILENO, buf)
}
