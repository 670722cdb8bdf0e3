// booth-list: lists the frames of a line from the module, in ASCII framing. It reads standard input, whose end is the quiet, and prints a line for each
// frame, then the total of noise. What is printed is worked out by the listing crate; here are the loop that reads and writes, and its counts.
#![tactic(auto)]

ghost use Rattle.std.specs.Prelude.{◌≡◌, ◌≤◌, length, IfSome};
ghost use Rattle.listing.specs.Listing.{values_of};

use frame::{Framing, Refusal};
use listing::{CHUNK_ROOM, Lines, list_chunk, list_quiet, list_total};
use reader::Reader;
use std::io::{Read, Write};

// How many reads are made at most, since every loop ends. At one byte a read, at 115,200 baud, they last for 190 years; behind them the segment ends as at
// the input's end.
const READS: u64 = 0x400000000000;

// Writes the lines of an answer, which are in the front of out, and gives their noise: none where the answer is refused, or not all was written.
fn write_lines<W: Write>(answer: Result<Lines, Refusal>, out: &[u8], output: &mut W) -> Option<u64>
    requires { (values_of answer).len ≤ length out.now }
    ensures { IfSome result (λ noise. noise ≡ (values_of answer).noise) }
{
    let lines = answer.ok()?;
    output.write_all(&out[..lines.len]).ok()?;
    Some(lines.noise as u64)
}

// The input has ended after `noise` bytes of noise: lists what the reader still holds, and the total.
fn finish<W: Write>(reader: Reader, noise: u64, out: &mut [u8], output: &mut W) -> Option<()>
    requires { noise ≤ 0x8000000000000000 }
{
    let listed = list_quiet(reader, out);
    let noise = noise + write_lines(listed.answer, out, output)?;
    let len = list_total(noise, out).ok()?;
    output.write_all(&out[..len]).ok()
}

// Lists each chunk as it comes, so that on a live line a frame shows at once. A failed read ends the input.
fn list_input<R: Read, W: Write>(input: &mut R, output: &mut W) -> Option<()> {
    let mut chunk = io::large_buffer();
    let mut out = [0u8; CHUNK_ROOM];
    let mut reader = Reader::new(Framing::Ascii);
    let mut noise: u64 = 0;
    for _ in 0..READS {
        let n = input.read(&mut chunk).unwrap_or(0);
        if n == 0 {
            break;
        }
        let listed = list_chunk(reader, &chunk[..n], &mut out);
        noise += write_lines(listed.answer, &out, output)?;
        reader = listed.reader;
    }
    finish(reader, noise, &mut out, output)
}

// An output that takes no more ends the program.
fn main(rt: HostRuntime) {
    let mut input = rt.stdin();
    let mut output = rt.stdout();
    let _ = list_input(&mut input, &mut output);
}
