// Reading and writing a single frame, with the answer as numbers.
ghost use Rattle.std.specs.Prelude.{◌≡◌};
ghost use Rattle.boundary.specs.Framing.{framing_of, format_of};
ghost use Rattle.boundary.specs.Single.{reading_by, writing_by, ReadsFlat, WritesFlat};

use crate::framing::{format_of, framing_of};
use crate::refusal::{Numbered, Unnamed};
use frame::FrameRead;

// A read's answer: the refusal's number, 0 for none, the bytes used and the payload's length.
// Kept: the refusal is a number, since this is the C interface.
#[repr(C)]
#[derive(Clone, Copy, Default)]
pub struct FlatReading {
    pub refusal: u8,
    pub used: usize,
    pub len: usize,
}

// A write's answer: the refusal's number, 0 for none, and the length of the frame.
// Kept: the refusal is a number, since this is the C interface.
#[repr(C)]
#[derive(Clone, Copy)]
pub struct FlatWriting {
    pub refusal: u8,
    pub len: usize,
}

fn flat_reading<E: Numbered>(read: Result<FrameRead, E>) -> FlatReading
    ensures { result ≡ reading_by E.number_of read }
{
    match read {
        Ok(frame) => FlatReading {
            refusal: 0,
            used: frame.used,
            len: frame.len,
        },
        Err(refusal) => FlatReading {
            refusal: refusal.number(),
            ..FlatReading::default()
        },
    }
}

pub(crate) fn flat_writing<E: Numbered>(written: Result<usize, E>) -> FlatWriting
    ensures { result ≡ writing_by E.number_of written }
{
    match written {
        Ok(len) => FlatWriting { refusal: 0, len },
        Err(refusal) => FlatWriting {
            refusal: refusal.number(),
            len: 0,
        },
    }
}

// Reads the frame at the front of s into the front of buf, as `frame::read_frame_as` does. A format that is none of 0 to 3 is refused with 255, and buf
// stays.
pub fn boundary_read_frame(format: u8, s: &[u8], buf: &mut [u8]) -> FlatReading
    ensures { ReadsFlat (format_of format) s.now buf.old result buf.new }
{
    match format_of(format) {
        Some(format) => flat_reading(frame::read_frame_as(format, s, buf)),
        None => flat_reading(Err(Unnamed::Kind)),
    }
}

// Writes a payload as a frame into the front of buf, as `frame::write_frame` does. A framing that is neither 0 nor 1 is refused with 255, and buf stays.
pub fn boundary_write_frame(framing: u8, payload: &[u8], buf: &mut [u8]) -> FlatWriting
    ensures { WritesFlat (framing_of framing) 0 payload.now buf.old result buf.new }
{
    match framing_of(framing) {
        Some(framing) => flat_writing(frame::write_frame(framing, payload, buf)),
        None => flat_writing(Err(Unnamed::Kind)),
    }
}
