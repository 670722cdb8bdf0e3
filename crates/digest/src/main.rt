// Drives the line reader over standard input: `digest FORMAT SIZE` feeds it in chunks of SIZE bytes and prints how many frames and how many bytes of noise
// came out, and a digest of the payloads. FORMAT is `binary`, in which the footer is optional, `required`, binary with the footer required, `ascii`, in which
// the ending is CR LF, or `any`, ASCII with any ending. The end of the input is the quiet. bench/ compares it with other programs.
#![tactic(auto)]

ghost use Rattle.std.specs.Prelude.{◌<◌};

use console::{Unfailing, format_named, front, number, rest};
use frame::{Ending, Format, Refusal};
use reader::{Fed, FeedAnswer, QuietAnswer, Reader, View};
use std::fmt;
use std::io::{self, Read, Stdin};
use std::rt::Env;

// What has come out so far.
#[derive(Clone, Copy, Default)]
struct Tally {
    frames: u64,
    noise: u64,
    digest: u64,
}

impl Tally {
    // Adds noise. No input has so much that it wraps.
    fn add_noise(&mut self, noise: usize) {
        self.noise = self.noise.wrapping_add(noise as u64);
    }

    // Adds what an answer gave. A frame's payload is in the front of buf.
    fn add_answer(&mut self, answer: Result<FeedAnswer, Refusal>, buf: &[u8]) {
        match answer {
            Ok(FeedAnswer::Frame { noise, len, .. }) => self.add_frame(noise, front(buf, len)),
            Ok(FeedAnswer::NeedsMore { noise, .. }) => self.add_noise(noise),
            Err(_) => {}
        }
    }

    // Adds noise and the frame with this payload behind it.
    fn add_frame(&mut self, noise: usize, payload: &[u8]) {
        self.add_noise(noise);
        self.frames = self.frames.wrapping_add(1);
        self.digest = self.digest.rotate_left(5) ^ weighted_sum(payload);
    }
}

impl fmt::Display for Tally {
    fn fmt<W: fmt::Write>(&self, f: &mut fmt::Formatter<W>) -> fmt::Result {
        let Tally {
            frames,
            noise,
            digest,
        } = *self;
        write!(f, "frames {frames}\nnoise {noise}\ndigest {digest:016X}")
    }
}

// A reader's state, and what has come out so far.
#[derive(Drop)]
struct Driven {
    reader: Reader,
    tally: Tally,
}

// The sum of each byte times its place, counted from 1, as the sum of the sums of the bytes from each place on: two additions for each byte.
fn weighted_sum(payload: &[u8]) -> u64 {
    let mut tail: u64 = 0;
    let mut sum: u64 = 0;
    for b in payload.iter().rev() {
        tail = tail.wrapping_add(u64::from(*b));
        sum = sum.wrapping_add(tail);
    }
    sum
}

// Whether a chunk is fed by views: where nothing is held, and chunks are so long that the copies of a reader's array that this saves outweigh the state
// that is made at the end.
fn is_viewed(count: usize, size: usize) -> bool {
    count == 0 && size > Reader::MAX_ASCII
}

// Feeds a chunk by views until more is needed, where nothing is held; `follows` is the reader's mark that an optional byte may follow. A turn hands out a
// frame, so the turns are fewer than bytes: their count here is never used up.
fn drive_view(
    format: Format,
    follows: bool,
    tally: &mut Tally,
    chunk: &[u8],
    buf: &mut [u8],
) -> Reader {
    let mut view = View {
        format,
        from: 0,
        end: 0,
        follows,
        judged: 0,
    };
    for _ in 0..0x20000u32 {
        let viewed = view.feed(chunk, buf);
        view = viewed.view;
        tally.add_answer(viewed.answer, buf);
        if !matches!(viewed.answer, Ok(FeedAnswer::Frame { .. })) {
            return view.reader(chunk);
        }
    }
    view.reader(chunk)
}

// Feeds s in chunks of `size` bytes, each one's rest again until more is needed. A turn hands out a frame or takes a chunk to its end, so the turns are fewer
// than bytes and chunks, but for a first one: their count here is never used up.
// Kept: one loop over both chunks and frames, whose state is the last answer. With a loop over `s.chunks(size)` around one over a chunk's frames, or the state
// as a reader alone, each call copies the reader's array once more: 20 to 90 % more instructions in chunks of 1 byte, 11 to 30 % in chunks of 64.
fn drive(start: Driven, s: &[u8], size: usize) -> Driven
    requires { 0 < size }
{
    let mut buf = [0u8; 256];
    let format = start.reader.format;
    let mut fed = all_taken(start.reader);
    let mut tally = start.tally;
    let mut left: &[u8] = &[];
    let mut others = s;
    for _ in 0..0x400000u32 {
        tally.add_answer(fed.answer, &buf);
        if let Ok(FeedAnswer::Frame { taken, .. }) = fed.answer {
            left = rest(left, taken);
        } else {
            if others.is_empty() {
                break;
            }
            (left, others) = others.split_at(size.min(others.len()));
        }
        if is_viewed(fed.reader.count, size) {
            let follows = fed.reader.follows;
            fed = all_taken(drive_view(format, follows, &mut tally, left, &mut buf));
        } else {
            fed = fed.reader.feed(left, &mut buf);
        }
    }
    Driven {
        reader: fed.reader,
        tally,
    }
}

// The answer to a chunk that was taken to its end.
fn all_taken(reader: Reader) -> Fed {
    Fed {
        reader,
        answer: Ok(FeedAnswer::NeedsMore {
            taken: 0,
            noise: 0,
            judged: 0,
        }),
    }
}

// Makes quiet calls until the reader is empty. A state holds fewer frames than there are turns.
fn drive_quiet(start: Driven) -> Tally {
    let mut buf = [0u8; 256];
    let Driven {
        mut reader,
        mut tally,
    } = start;
    for _ in 0..517 {
        let quieted = reader.quiet(&mut buf);
        reader = quieted.reader;
        match quieted.answer {
            Ok(QuietAnswer::Frame { noise, len, .. }) => tally.add_frame(noise, front(&buf, len)),
            Ok(QuietAnswer::Empty { noise, .. }) => {
                tally.add_noise(noise);
                break;
            }
            Err(_) => break,
        }
    }
    tally
}

// Reads the input to its end. No input comes near to the count of reads.
fn drive_input(input: &mut Stdin, format: Format, size: usize) -> Tally
    requires { 0 < size }
{
    let mut chunk = [0u8; 65536];
    let mut driven = Driven {
        reader: Reader::open(format),
        tally: Tally::default(),
    };
    for _ in 0..0x400000000000u64 {
        let n = input.read(&mut chunk).unwrap_or(0);
        if n == 0 {
            break;
        }
        driven = drive(driven, &chunk[..n], size);
    }
    drive_quiet(driven)
}

// Takes the format and the size from the arguments, and prints what came out.
fn main(rt: HostRuntime) -> io::Result<()> {
    let output = Unfailing(&rt);
    let mut word = [0u8; 4096];
    let length = rt.arg(1, &mut word).unwrap_or(0);
    let format = format_named(&word[..length]).unwrap_or(Format::Ascii(Ending::CrLf));
    let length = rt.arg(2, &mut word).unwrap_or(0);
    let size = number(&word[..length]);
    if size == 0 {
        return println!(output; "usage: digest binary|required|ascii|any SIZE");
    }
    let tally = drive_input(&mut rt.stdin(), format, size);
    println!(output; "{tally}")
}
