// What the line reader's calls answer, and how an answer is made of a scan.
ghost use Rattle.std.specs.Prelude.{◌≡◌, false, ◌-◌, ◌≤◌};
ghost use Rattle.reader.specs.Reader.{fed_values_of};
ghost use Rattle.reader.specs.Scan.{scanned};
ghost use Rattle.reader.specs.Answer.{HeldSo, TookFirst, kept_as, Answerable, Keeps};

use crate::scan::{ScanEnd, ScanResult};
use frame::{Format, may_follow};

#[derive(Clone, Copy, Debug, PartialEq, Eq)]
pub enum FeedAnswer {
    // A frame: `taken` bytes of the chunk were taken, an optional one that follows the frame before this among them, `noise` bytes were settled as noise,
    // the leftmost rule judges `judged` bytes at the places where the call stood, without those that the state before said were judged, the payload of
    // `len` bytes is in the buffer's front, and the frame began `began` bytes before the first byte that is not taken.
    Frame {
        taken: usize,
        noise: usize,
        judged: usize,
        len: usize,
        began: usize,
    },
    // The whole chunk was taken, `noise` bytes were settled as noise, `judged` bytes were judged so, and more bytes are needed.
    NeedsMore {
        taken: usize,
        noise: usize,
        judged: usize,
    },
}

#[derive(Clone, Copy, Debug, PartialEq, Eq)]
pub enum QuietAnswer {
    // A frame among the held bytes, with the same numbers but for `taken`, which is 0; it began `began` bytes before their end, which is the segment's.
    Frame {
        noise: usize,
        judged: usize,
        len: usize,
        began: usize,
    },
    // No frame is left, and the state is a new reader's.
    Empty {
        noise: usize,
        judged: usize,
    },
}

impl FeedAnswer {
    // How many of `count` bytes that are held after an answer were judged at the first: all where more are needed; behind a frame none yet.
    pub(crate) fn judged_held(self, count: usize) -> usize
        ensures { HeldSo self count result }
    {
        match self {
            FeedAnswer::Frame { .. } => 0,
            FeedAnswer::NeedsMore { .. } => count,
        }
    }

    // The answer of a call that took `first` bytes more, before the others.
    pub(crate) fn took_first(mut self, first: usize) -> FeedAnswer
        requires answer_bound { (fed_values_of self).taken ≤ 65536 }
        requires first_bound { first ≤ 1 }
        ensures { TookFirst first self result }
    {
        match &mut self {
            FeedAnswer::Frame { taken, .. } => *taken += first,
            FeedAnswer::NeedsMore { taken, .. } => *taken += first,
        }
        self
    }
}

// What was there before a scan: held bytes at the front of the slice, noise bytes settled, and the chunk's length.
#[derive(Drop)]
pub(crate) struct Before {
    pub(crate) base: usize,
    pub(crate) noise: usize,
    pub(crate) size: usize,
}

// An answer, the part of the scanned slice that is held afterwards, from index `from` up to `end`, which is behind it, and whether an optional byte may
// follow.
#[derive(Drop)]
pub(crate) struct Kept {
    pub(crate) answer: FeedAnswer,
    pub(crate) from: usize,
    pub(crate) end: usize,
    pub(crate) follows: bool,
}

// The answer that more bytes are needed, where those from `from` up to `end` are held.
fn more_needed(taken: usize, noise: usize, judged: usize, from: usize, end: usize) -> Kept
    ensures { result ≡ kept_as (FeedAnswer.NeedsMore taken noise judged) from end false }
{
    Kept {
        answer: FeedAnswer::NeedsMore {
            taken,
            noise,
            judged,
        },
        from,
        end,
        follows: false,
    }
}

// The answer to a scan of w, where the call judged `judged` bytes.
pub(crate) fn answer(
    format: Format,
    w: &[u8],
    found: ScanResult,
    before: Before,
    judged: usize,
) -> Kept
    requires { Answerable format w.now (scanned format w.now found) before }
    ensures { Keeps format before w.now (scanned format w.now found) judged result }
{
    let place = found.place;
    let far = found.reach;
    let noise = before.noise + place;
    let taken = before.size;
    match found.end {
        ScanEnd::Frame { used, len } => {
            let taken = far - before.base;
            let next = place + used;
            let began = far - place;
            Kept {
                answer: FeedAnswer::Frame {
                    taken,
                    noise,
                    judged,
                    len,
                    began,
                },
                from: next,
                end: far,
                follows: may_follow(format, w, next),
            }
        }
        ScanEnd::Undecided => more_needed(taken, noise, judged, place, w.len()),
        ScanEnd::Passed => more_needed(taken, noise, judged, w.len(), w.len()),
    }
}
