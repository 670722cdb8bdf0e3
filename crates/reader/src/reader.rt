// The line reader: frames out of chunks of a serial line, as they come.
ghost use Rattle.std.specs.Prelude.{◌≡◌, [], true, false, cond, ◌+◌, ◌-◌, ◌≤◌, eqb, length, take, drop, Ok, OnOk};
ghost use Rattle.std.proofs.Math.Seq.{paste};
ghost use Rattle.frame.specs.Framing.{format_of, judge, limit};
ghost use Rattle.reader.specs.Reader.{holding, state_of, line_behind, quiet_held, judged_to, line_judged, quiet_judged, new_reader, Holds, can_hold, sound, call_refusal};
ghost use Rattle.reader.specs.Reader.{Feeds, Quiets};
ghost use Rattle.reader.specs.View.{part};
ghost use Rattle.reader.specs.Answer.{scan_whole};
ghost use Rattle.reader.specs.Feeding.{refusal_in, Admitted, Ready, past, Joins, Settles, Stores, Leaves, LeavesHeld, LeavesLine, QuietAnswered, ChunkFed};

use crate::answer::{Before, FeedAnswer, Kept, QuietAnswer, answer};
use crate::scan::{Places, ScanEnd, find, find_more};
use frame::{Format, Framing, Refusal, absorbed, may_follow};

// A reader's state, by value: its format; the bytes that it holds, the first `count` of `held`; and `follows`, whether an optional byte, the 04 of a frame that
// may lack it or the LF behind a CR, may still follow the last frame and belong to it. In formats without such a byte `follows` means nothing. `judged` is how
// many of the held bytes were judged at the first held place, which later calls don't count again.
// Kept: a count beside the array that it counts, since a state is a plain value: `Feeds` and `Quiets` speak of one made by hand, with any count, too.
#[derive(Clone, Copy, PartialEq, Eq)]
pub struct Reader {
    pub held: [u8; 517],
    pub follows: bool,
    pub format: Format,
    pub count: usize,
    pub judged: usize,
}

// The answer to a chunk, with the state that follows.
#[derive(Clone, Copy)]
pub struct Fed {
    pub reader: Reader,
    pub answer: Result<FeedAnswer, Refusal>,
}

// The answer to a quiet, with the state that follows.
#[derive(Clone, Copy)]
pub struct Quieted {
    pub reader: Reader,
    pub answer: Result<QuietAnswer, Refusal>,
}

// What was settled before a chunk in which a call goes on: `noise` bytes, at whose places the call counts `judged` bytes, and for them the chunk's first
// `reach` bytes were taken.
#[derive(Clone, Copy)]
struct Settled {
    reach: usize,
    noise: usize,
    judged: usize,
}

// The held bytes of a state, and as much of a chunk as a frame that begins in them can have: the first `size` of `bytes`.
// Kept: an array with its length beside it, since a function can hand out no slice of its own array, and there is no heap here.
#[derive(Drop)]
struct Joined {
    bytes: [u8; 1034],
    size: usize,
}

// The longest frame of a format.
fn limit_of(format: Format) -> usize
    ensures { result ≡ limit format }
{
    match format {
        Format::Binary(_) => Reader::MAX_BINARY,
        Format::Ascii(_) => Reader::MAX_ASCII,
    }
}

// Whether a reader can hold so many bytes, of which so many were judged.
pub(crate) fn can_hold(format: Format, count: usize, judged: usize) -> bool
    ensures { result ≡ can_hold format count judged }
{
    count <= limit_of(format) && judged <= count
}

// Why a call is refused, if it is: with 16 where its state is not sound, 13 where the buffer has under `least` bytes, 15 where more than 65,536 bytes are
// offered.
pub(crate) fn admitted(
    is_sound: bool,
    least: usize,
    room: usize,
    size: usize,
) -> Result<(), Refusal>
    ensures number { refusal_in result ≡ call_refusal is_sound least room size }
    ensures accepted { OnOk result (Admitted is_sound least room size) }
{
    if !is_sound {
        return Err(Refusal::State);
    }
    if room < least {
        return Err(Refusal::Buffer);
    }
    if 65536 < size {
        return Err(Refusal::Chunk);
    }
    Ok(())
}

// Joins held bytes and the chunk's front.
fn join(format: Format, held: &[u8], chunk: &[u8]) -> Joined
    requires { length held.now ≤ limit format }
    ensures { Joins format held.now chunk.now result }
{
    let count = held.len();
    let more = chunk.len().min(limit_of(format));
    let mut bytes = [0u8; 1034];
    octets::copy(held, &mut bytes);
    octets::copy(&chunk[..more], &mut bytes[count..]);
    Joined {
        bytes,
        size: count + more,
    }
}

// Puts the bytes of a chunk into held from `at` on, a single one without a call.
fn put_behind(held: &mut [u8], at: usize, chunk: &[u8])
    requires { at + length chunk.now ≤ length held.old }
    ensures { held.new ≡ paste held.old at chunk.now (length chunk.now) }
{
    if chunk.len() == 1 {
        held[at] = chunk[0];
        return;
    }
    octets::copy(chunk, &mut held[at..]);
}

// Moves the bytes of held from `from` up to `end` to its front, unless they stand there.
fn move_front(held: &mut [u8], from: usize, end: usize)
    requires from_le_end { from ≤ end }
    requires end_in_bounds { end ≤ length held.old }
    ensures { take (end - from) held.new ≡ part from end held.old }
{
    if 0 < from {
        held.copy_within(from..end, 0);
    }
}

// A state's number of judged bytes, or 0 where an optional byte was absorbed from the front of the held bytes, to whose place it belonged.
pub(crate) fn judged_behind(absorbed: usize, judged: usize) -> usize
    ensures { result ≡ cond (eqb absorbed 0) judged 0 }
{
    if absorbed == 0 { judged } else { 0 }
}

// The answer that no frame is left, with a new reader.
fn emptied(format: Format, noise: usize, judged: usize) -> Quieted
    ensures reader_value { result.reader ≡ new_reader format }
    ensures answer_value { result.answer ≡ Ok (QuietAnswer.Empty noise judged) }
{
    Quieted {
        reader: Reader::open(format),
        answer: Ok(QuietAnswer::Empty { noise, judged }),
    }
}

// The next frame in the bytes that end a segment, `known` of which were judged at the first.
fn quiet_held(format: Format, s: &[u8], known: usize, buf: &mut [u8]) -> Quieted
    requires s_len_bound { length s.now ≤ limit format }
    requires known_in_bounds { known ≤ length s.now }
    requires in_bounds { 256 ≤ length buf.old }
    ensures { QuietAnswered format (quiet_held format s.now) (quiet_judged (holding format s.now false known))
        buf.old result buf.new }
{
    let places = Places {
        from: 0,
        stop: s.len(),
        reach: 0,
        ended: true,
    };
    let found = find_more(format, s, places, known, buf);
    let noise = found.place;
    let judged = found.judged;
    match found.end {
        ScanEnd::Frame { used, len } => {
            let next = noise + used;
            let reader = Reader::hold(format, &s[next..], may_follow(format, s, next), 0);
            let began = s.len() - noise;
            Quieted {
                reader,
                answer: Ok(QuietAnswer::Frame {
                    noise,
                    judged,
                    len,
                    began,
                }),
            }
        }
        ScanEnd::Undecided | ScanEnd::Passed => emptied(format, noise, judged),
    }
}

impl Reader {
    // The longest payload, the 256 of `writable`, Single.antt of the crate frame.
    pub const MAX_PAYLOAD: usize = 256;
    // The longest frame in binary framing, `limit` for either footer, Framing.antt of the crate frame.
    pub const MAX_BINARY: usize = 262;
    // The longest frame in ASCII framing, `limit` for either ending, which is also the length of a state's array.
    pub const MAX_ASCII: usize = 517;

    // A new reader for a format.
    pub fn open(format: Format) -> Self
        ensures { result ≡ new_reader format }
    {
        Reader {
            format,
            held: [0u8; Reader::MAX_ASCII],
            count: 0,
            follows: false,
            judged: 0,
        }
    }

    // A new reader for a framing's default format: in binary framing the footer may be left out, in ASCII framing the ending is CR LF.
    pub fn new(framing: Framing) -> Self
        ensures { result ≡ new_reader (format_of framing) }
    {
        Reader::open(framing.format())
    }

    // A reader that holds the bytes of s, `judged` of which were judged at the first.
    pub(crate) fn hold(format: Format, s: &[u8], follows: bool, judged: usize) -> Self
        requires { length s.now ≤ 517 }
        ensures { Holds (holding format s.now follows judged) result }
    {
        let mut held = [0u8; Reader::MAX_ASCII];
        octets::copy(s, &mut held);
        Reader {
            format,
            held,
            count: s.len(),
            follows,
            judged,
        }
    }

    // Why a call with this state is refused, if it is, that needs a buffer of `least` bytes, is given one of `room` bytes, and is offered `size` bytes: with 16
    // where the state holds more bytes than a frame can have, or says that more bytes were judged than it holds, 13 where the buffer is too short, 15 where
    // more than 65,536 bytes are offered.
    pub fn admits(&self, least: usize, room: usize, size: usize) -> Result<(), Refusal>
        ensures number { refusal_in result ≡ call_refusal (sound self.now) least room size }
        ensures accepted { OnOk result (Admitted (sound self.now) least room size) }
    {
        admitted(
            can_hold(self.format, self.count, self.judged),
            least,
            room,
            size,
        )
    }

    // Takes bytes of a chunk until the next frame is settled, whose payload goes to the front of buf; the rest of buf stays. An optional byte that follows the
    // last frame is taken first, and is no noise; that of the frame which this call hands out is left for the next. Bytes that were taken behind the frame,
    // where an earlier start failed late, are held. Call it again with the chunk's rest, even an empty one, until more bytes are needed. Refused with 16
    // where the state holds more bytes than a frame can have, or says that more bytes were judged than it holds, 13 where buf has under 256 bytes, 15 where
    // the chunk has over 65,536; a refusal leaves state and buffer.
    pub fn feed(mut self, chunk: &[u8], buf: &mut [u8]) -> Fed
        ensures { Feeds self chunk.now buf.old result buf.new }
    {
        if let Err(refusal) = self.admits(Reader::MAX_PAYLOAD, buf.len(), chunk.len()) {
            return Fed {
                reader: self,
                answer: Err(refusal),
            };
        }
        let answer = self.feed_state(chunk, buf);
        Fed {
            reader: self,
            answer: Ok(answer),
        }
    }

    // The line was quiet: the held bytes end their segment. An optional byte in front that follows the last frame is dropped; then it gives the next
    // frame in them, as `feed` does, or answers that they are empty, with a new reader's state, behind which such a byte is noise. Call it again until then.
    // Refused with 16, 13 as `feed` is.
    pub fn quiet(mut self, buf: &mut [u8]) -> Quieted
        ensures { Quiets self buf.old result buf.new }
    {
        if let Err(refusal) = self.admits(Reader::MAX_PAYLOAD, buf.len(), 0) {
            return Quieted {
                reader: self,
                answer: Err(refusal),
            };
        }
        self.drop_optional();
        quiet_held(self.format, &self.held[..self.count], self.judged, buf)
    }

    // Finds the next frame in the held bytes and a chunk behind them, and holds those that are left.
    fn feed_state(&mut self, chunk: &[u8], buf: &mut [u8]) -> FeedAnswer
        requires { Ready self.old chunk.now buf.old }
        ensures { LeavesLine (state_of self.old) chunk.now buf.old result self.new buf.new }
    {
        if self.count == 0 {
            return self.feed_next(chunk, buf);
        }
        self.drop_optional();
        if limit_of(self.format) - self.count < chunk.len() {
            self.feed_long(chunk, buf)
        } else {
            self.feed_short(chunk, buf)
        }
    }

    // The same where nothing is held: an optional byte that may follow the last frame is taken first, at the chunk's front; with no byte offered it may still
    // follow.
    fn feed_next(&mut self, chunk: &[u8], buf: &mut [u8]) -> FeedAnswer
        requires ready { Ready self.old chunk.now buf.old }
        requires none_held { self.old.count ≡ 0 }
        ensures { LeavesLine (state_of self.old) chunk.now buf.old result self.new buf.new }
    {
        if chunk.is_empty() {
            return FeedAnswer::NeedsMore {
                taken: 0,
                noise: 0,
                judged: 0,
            };
        }
        let first = absorbed(self.format, self.follows, chunk);
        let none = Settled {
            reach: 0,
            noise: 0,
            judged: 0,
        };
        self.feed_chunk(&chunk[first..], none, buf)
            .took_first(first)
    }

    // Drops an optional byte that may follow the last frame from the front of the held bytes. None may follow it then.
    fn drop_optional(&mut self)
        requires { sound self.old ≡ true }
        ensures { Holds (past (state_of self.old)) self.new }
    {
        let first = absorbed(self.format, self.follows, &self.held[..self.count]);
        move_front(&mut self.held, first, self.count);
        self.count -= first;
        self.judged = judged_behind(first, self.judged);
        self.follows = false;
    }

    // Finds the next frame where bytes are held, none of them optional, and the chunk does not fit behind them.
    fn feed_long(&mut self, chunk: &[u8], buf: &mut [u8]) -> FeedAnswer
        requires { Ready self.old chunk.now buf.old }
        ensures { LeavesHeld (state_of self.old) chunk.now buf.old result self.new buf.new }
    {
        let format = self.format;
        let count = self.count;
        let joined = join(format, &self.held[..count], chunk);
        let w = &joined.bytes[..joined.size];
        let places = Places {
            from: 0,
            stop: count,
            reach: count,
            ended: false,
        };
        let found = find_more(format, w, places, self.judged, buf);
        if let ScanEnd::Passed = found.end {
            let settled = Settled {
                reach: found.reach - count,
                noise: count,
                judged: found.judged,
            };
            return self.feed_chunk(chunk, settled, buf);
        }
        let before = Before {
            base: count,
            noise: 0,
            size: chunk.len(),
        };
        self.keep(w, answer(format, w, found, before, found.judged))
    }

    // The same where the chunk fits behind the held bytes: it is put there.
    fn feed_short(&mut self, chunk: &[u8], buf: &mut [u8]) -> FeedAnswer
        requires ready { Ready self.old chunk.now buf.old }
        requires chunk_bound { self.old.count + length chunk.now ≤ limit self.old.format }
        ensures { LeavesHeld (state_of self.old) chunk.now buf.old result self.new buf.new }
    {
        let format = self.format;
        let count = self.count;
        let size = count + chunk.len();
        put_behind(&mut self.held, count, chunk);
        let places = Places {
            from: 0,
            stop: size,
            reach: count,
            ended: false,
        };
        let w = &self.held[..size];
        let found = find_more(format, w, places, self.judged, buf);
        let before = Before {
            base: count,
            noise: 0,
            size: chunk.len(),
        };
        let kept = answer(format, w, found, before, found.judged);
        self.shift(kept)
    }

    // Finds the next frame in a chunk, behind what was settled before it. The bytes that were held go. As a call of its own it takes up to 9 % more
    // instructions, in chunks of 64 bytes.
    #[inline(always)]
    fn feed_chunk(&mut self, chunk: &[u8], settled: Settled, buf: &mut [u8]) -> FeedAnswer
        requires { ChunkFed self.old.format chunk.now settled buf.old }
        ensures { Leaves self.old.format (scan_whole self.old.format 0 settled.noise settled.reach chunk.now)
            (settled.judged + judged_to self.old.format (judge self.old.format) chunk.now) buf.old result self.new buf.new }
    {
        let format = self.format;
        let size = chunk.len();
        let places = Places {
            from: 0,
            stop: size,
            reach: settled.reach,
            ended: false,
        };
        let found = find(format, chunk, places, buf);
        let before = Before {
            base: 0,
            noise: settled.noise,
            size,
        };
        let judged = settled.judged + found.judged;
        self.keep(chunk, answer(format, chunk, found, before, judged))
    }

    // Holds the kept part of w behind an answer.
    fn keep(&mut self, w: &[u8], kept: Kept) -> FeedAnswer
        requires from_le_end { kept.from ≤ kept.end }
        requires end_in_bounds { kept.end ≤ length w.now }
        requires end_bound { kept.end ≤ kept.from + 517 }
        ensures { Stores self.old.format (part kept.from kept.end w.now) kept result self.new }
    {
        octets::copy(&w[kept.from..kept.end], &mut self.held);
        self.settle(kept)
    }

    // Holds the kept part of its own array behind an answer.
    fn shift(&mut self, kept: Kept) -> FeedAnswer
        requires from_le_end { kept.from ≤ kept.end }
        requires end_in_bounds { kept.end ≤ 517 }
        ensures { Stores self.old.format (part kept.from kept.end self.old.held) kept result self.new }
    {
        move_front(&mut self.held, kept.from, kept.end);
        self.settle(kept)
    }

    // The state behind an answer, where the kept bytes stand in the array's front.
    fn settle(&mut self, kept: Kept) -> FeedAnswer
        requires { kept.from ≤ kept.end }
        ensures { Settles self.old kept result self.new }
    {
        self.count = kept.end - kept.from;
        self.follows = kept.follows;
        self.judged = kept.answer.judged_held(self.count);
        kept.answer
    }
}
