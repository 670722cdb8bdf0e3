// A line reader's state whose held bytes are a part of the chunk at hand. Whoever has the chunk saves the copies of a reader's array.
ghost use Rattle.std.specs.Prelude.{◌≡◌, true, false, length};
ghost use Rattle.reader.specs.View.{inside, Views, Stands};
ghost use Rattle.reader.specs.Feeding.{line_over, judged_in, Admitted, KeepsCall, PartFed, past_optional};

use crate::answer::{Before, FeedAnswer, Kept, answer};
use crate::reader::{Reader, admitted, can_hold, judged_behind};
use crate::scan::find_first;
use frame::{Format, Refusal, absorbed};

// A reader's state, by value, whose held bytes are those of a chunk from index `from` up to `end`, which is behind them; `follows` and `judged` are the
// reader's.
#[derive(Clone, Copy, PartialEq, Eq)]
pub struct View {
    pub format: Format,
    pub from: usize,
    pub end: usize,
    pub follows: bool,
    pub judged: usize,
}

// The answer to a chunk, with the view that follows.
#[derive(Clone, Copy)]
pub struct Viewed {
    pub view: View,
    pub answer: Result<FeedAnswer, Refusal>,
}

// Finds the next frame where the first `count` bytes of w are held, `judged` of them judged at the first, the others are offered, and no optional byte follows
// the last frame.
fn feed_part(format: Format, w: &[u8], count: usize, judged: usize, buf: &mut [u8]) -> Kept
    requires { PartFed format w.now count buf.old }
    ensures { KeepsCall (line_over format count w.now) (judged_in format false count judged w.now) count w.now
        result buf.old buf.new }
{
    let found = find_first(format, w, count, judged, buf);
    let before = Before {
        base: count,
        noise: 0,
        size: w.len() - count,
    };
    answer(format, w, found, before, found.judged)
}

impl View {
    // The line call of a reader that holds the view's bytes, offered what stands behind them in the chunk: an optional byte that follows the last frame is
    // dropped where it is held, and taken first where it is offered. Call it again with the view that follows and the same chunk until more bytes are
    // needed. Refused with 16 where the view's bytes do not lie in the chunk or are more than a frame can have, or more were judged than there are, 13 where
    // buf has under 256 bytes, 15 where the chunk has over 65,536; a refusal leaves view and buffer.
    pub fn feed(self, chunk: &[u8], buf: &mut [u8]) -> Viewed
        ensures { Views self chunk.now buf.old result buf.new }
    {
        if let Err(refusal) = admitted(
            self.is_inside(chunk.len()),
            Reader::MAX_PAYLOAD,
            buf.len(),
            chunk.len(),
        ) {
            return Viewed {
                view: self,
                answer: Err(refusal),
            };
        }
        self.feed_rest(chunk, buf)
    }

    // The reader that holds the view's bytes, with its mark and its number of judged bytes; one that holds nothing, without the mark, where the view's call is
    // refused with 16.
    pub fn reader(self, chunk: &[u8]) -> Reader
        ensures { Stands self chunk.now result }
    {
        if !self.is_inside(chunk.len()) {
            return Reader::open(self.format);
        }
        let held = &chunk[self.from..self.end];
        Reader::hold(self.format, held, self.follows, self.judged)
    }

    // Whether the view's held bytes lie in a chunk of so many bytes, and a reader can hold them with the view's number of judged bytes.
    fn is_inside(self, size: usize) -> bool
        ensures { result ≡ inside self size }
    {
        self.from <= self.end
            && self.end <= size
            && can_hold(self.format, self.end - self.from, self.judged)
    }

    // The line call of a view that is not refused. An optional byte that may follow the last frame is passed over, and the rest of the chunk is fed; with no
    // byte held or offered it may still follow.
    fn feed_rest(self, chunk: &[u8], buf: &mut [u8]) -> Viewed
        requires { Admitted (inside self (length chunk.now)) 256 (length buf.old) (length chunk.now) }
        ensures { Views self chunk.now buf.old result buf.new }
    {
        if self.from == chunk.len() {
            return Viewed {
                view: self,
                answer: Ok(FeedAnswer::NeedsMore {
                    taken: 0,
                    noise: 0,
                    judged: 0,
                }),
            };
        }
        let at = self.past_optional(chunk);
        let from = at.from;
        let kept = feed_part(at.format, &chunk[from..], at.end - from, at.judged, buf);
        Viewed {
            view: View {
                format: at.format,
                from: from + kept.from,
                end: from + kept.end,
                follows: kept.follows,
                judged: kept.answer.judged_held(kept.end - kept.from),
            },
            answer: Ok(kept.answer.took_first(at.end - self.end)),
        }
    }

    // The view behind an optional byte that may follow the last frame: the byte is passed over where it is held, and taken where it is offered.
    fn past_optional(self, chunk: &[u8]) -> View
        requires { inside self (length chunk.now) ≡ true }
        ensures { result ≡ past_optional self chunk.now }
    {
        if !self.follows {
            return self;
        }
        let first = absorbed(self.format, true, &chunk[self.from..]);
        let next = self.from + first;
        View {
            from: next,
            end: self.end.max(next),
            follows: false,
            judged: judged_behind(first, self.judged),
            ..self
        }
    }
}
