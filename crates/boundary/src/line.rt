// The line reader, with its state and its answers as numbers.
ghost use Rattle.std.specs.Prelude.{◌≡◌, option_map};
ghost use Rattle.reader.specs.Reader.{refusal_values, fed_values_of, quieted_values_of};
ghost use Rattle.boundary.specs.Line.{flat_reader, flat_values, flat_fed, flat_quieted, format_in, reader_in, new_flat, unnamed, FeedsFlat, QuietsFlat};

use crate::framing::{format_number, format_of};
use crate::refusal::{Numbered, Unnamed};
use reader::{Fed, FeedAnswer, QuietAnswer, Quieted, Reader};

// A reader's state: its format as a number, the bytes that it holds, the first `count` of `held`, whether an optional byte may follow the last frame, 0 for no,
// 1 for yes, and how many of the held bytes were judged at the first held place. A call with a state whose mark is any other number, or whose format is none,
// is refused with 255; one with a state that holds more bytes than a frame can have, or says that more bytes were judged than it holds, with 16.
// Kept: the format and the mark are numbers, and the array has its count beside it, since this is the C interface.
#[repr(C)]
#[derive(Clone, Copy)]
pub struct LineReader {
    pub format: u8,
    pub held: [u8; 517],
    pub count: usize,
    pub follows: u8,
    pub judged: usize,
}

// The answer's numbers: the refusal's, 0 for none, whether there is a frame, bytes taken, noise, bytes judged, the payload's length, and how far before the
// first byte that is not taken, at a quiet before the segment's end, the frame began, 0 where there is none.
// Kept: the refusal is a number, and a flag says whether there is a frame, since this is the C interface.
#[repr(C)]
#[derive(Clone, Copy, Default)]
pub struct LineAnswer {
    pub refusal: u8,
    pub is_frame: bool,
    pub taken: usize,
    pub noise: usize,
    pub judged: usize,
    pub len: usize,
    pub began: usize,
}

// An answer with the state that follows.
#[repr(C)]
#[derive(Clone, Copy)]
pub struct LineFed {
    pub reader: LineReader,
    pub answer: LineAnswer,
}

// A refused answer: the refusal's number, and zeros.
fn refused<E: Numbered>(refusal: E) -> LineAnswer
    ensures { result ≡ flat_values (refusal_values (E.number_of refusal)) }
{
    LineAnswer {
        refusal: refusal.number(),
        ..LineAnswer::default()
    }
}

impl From<FeedAnswer> for LineAnswer {
    ghost from_gives = { λ answer numbers. numbers ≡ flat_values (fed_values_of answer) };

    fn from(answer: FeedAnswer) -> LineAnswer {
        match answer {
            FeedAnswer::Frame {
                taken,
                noise,
                judged,
                len,
                began,
            } => LineAnswer {
                refusal: 0,
                is_frame: true,
                taken,
                noise,
                judged,
                len,
                began,
            },
            FeedAnswer::NeedsMore {
                taken,
                noise,
                judged,
            } => LineAnswer {
                taken,
                noise,
                judged,
                ..LineAnswer::default()
            },
        }
    }
}

impl From<QuietAnswer> for LineAnswer {
    ghost from_gives = { λ answer numbers. numbers ≡ flat_values (quieted_values_of answer) };

    fn from(answer: QuietAnswer) -> LineAnswer {
        match answer {
            QuietAnswer::Frame {
                noise,
                judged,
                len,
                began,
            } => LineAnswer {
                is_frame: true,
                noise,
                judged,
                len,
                began,
                ..LineAnswer::default()
            },
            QuietAnswer::Empty { noise, judged } => LineAnswer {
                noise,
                judged,
                ..LineAnswer::default()
            },
        }
    }
}

impl From<Reader> for LineReader {
    ghost from_gives = { λ reader numbers. numbers ≡ flat_reader reader };

    fn from(reader: Reader) -> LineReader {
        let held = reader.held;
        LineReader {
            format: format_number(reader.format),
            held,
            count: reader.count,
            follows: u8::from(reader.follows),
            judged: reader.judged,
        }
    }
}

impl From<Fed> for LineFed {
    ghost from_gives = { λ fed numbers. numbers ≡ flat_fed fed };

    // Always inlined: else `boundary_feed` clears and copies the 517 held bytes once more.
    #[inline(always)]
    fn from(fed: Fed) -> LineFed {
        LineFed {
            reader: LineReader::from(fed.reader),
            answer: fed.answer.map_or_else(refused, LineAnswer::from),
        }
    }
}

impl From<Quieted> for LineFed {
    ghost from_gives = { λ quieted numbers. numbers ≡ flat_quieted quieted };

    fn from(quieted: Quieted) -> LineFed {
        LineFed {
            reader: LineReader::from(quieted.reader),
            answer: quieted.answer.map_or_else(refused, LineAnswer::from),
        }
    }
}

// The state that numbers stand for, if its format is one and its mark is 0 or 1.
fn reader_in(n: LineReader) -> Option<Reader>
    ensures { result ≡ option_map (λ m. reader_in m n) (format_in n) }
{
    let follows = match n.follows {
        0 => false,
        1 => true,
        _ => return None,
    };
    Some(Reader {
        format: format_of(n.format)?,
        held: n.held,
        count: n.count,
        follows,
        judged: n.judged,
    })
}

// The answer to a call with a state whose numbers stand for none: refused with 255, and the state as it was.
fn unnamed(reader: LineReader) -> LineFed
    ensures { result ≡ unnamed reader }
{
    LineFed {
        reader,
        answer: refused(Unnamed::Kind),
    }
}

// A new reader's state. Where the format is none of 0 to 3 every call with the state is refused.
pub fn boundary_new_reader(format: u8) -> LineReader
    ensures { result ≡ new_flat format }
{
    LineReader {
        format,
        held: [0u8; Reader::MAX_ASCII],
        count: 0,
        follows: 0,
        judged: 0,
    }
}

// Takes bytes of a chunk until the next frame is settled, as `Reader::feed` does. A state whose format is none of 0 to 3, or whose mark is
// neither 0 nor 1, is refused with 255; state and buf stay.
pub fn boundary_feed(reader: LineReader, chunk: &[u8], buf: &mut [u8]) -> LineFed
    ensures { FeedsFlat (format_in reader) reader chunk.now buf.old result buf.new }
{
    // Returned early: a match with both answers clears and copies the 517 held bytes once more.
    let Some(known) = reader_in(reader) else {
        return unnamed(reader);
    };
    LineFed::from(known.feed(chunk, buf))
}

// The line was quiet: gives the next frame of the held bytes, as `Reader::quiet` does. A state whose format is none of 0 to 3, or whose
// mark is neither 0 nor 1, is refused with 255; state and buf stay.
pub fn boundary_quiet(reader: LineReader, buf: &mut [u8]) -> LineFed
    ensures { QuietsFlat (format_in reader) reader buf.old result buf.new }
{
    match reader_in(reader) {
        Some(known) => LineFed::from(known.quiet(buf)),
        None => unnamed(reader),
    }
}
