// The two framings and the formats in which they are read under one name: judging the front of a slice, taking the payload out and writing a frame.
ghost use Rattle.std.specs.Prelude.{◌≡◌, true, false, ℕ, MatchOption, ◌-◌, ◌<◌, ◌≤◌, length, ◌==◌, slice_index};
ghost use Rattle.frame.specs.Checks.{payload_in};
ghost use Rattle.frame.specs.Ascii.{carriage_return};
ghost use Rattle.frame.specs.Framing.{format_of, judge, layout, in_front, is_open, is_optional, absorbed};
ghost use Rattle.frame.specs.Judged.{verdict_of, payload_at, payload_end, bytes_at, unpacks, unpacked, with_room};
ghost use Rattle.frame.specs.Parts.{HasPayload, frame_length, Ended};
ghost use Rattle.frame.specs.declared.framing.Judged.TheVariants.{Failed};

use crate::refusal::Refusal;
use crate::{ascii, binary};

// How frames are laid out on the line, and so how they are written.
#[derive(Clone, Copy, Debug, PartialEq, Eq)]
pub enum Framing {
    // A5 5A, a length, the payload, its XOR and 04.
    Binary,
    // A colon, the payload and its checksum in hex digits, CR LF.
    Ascii,
}

// Whether a binary frame that is read may lack its last byte, the footer 04.
#[derive(Clone, Copy, Debug, PartialEq, Eq)]
pub enum Footer {
    // A frame is complete at its checksum; a 04 right behind it belongs to it.
    Optional,
    // A frame ends with its 04.
    Required,
}

// Which line ends an ASCII frame that is read may have.
#[derive(Clone, Copy, Debug, PartialEq, Eq)]
pub enum Ending {
    // A frame ends with CR LF.
    CrLf,
    // A frame is complete at CR or at LF; an LF right behind its CR belongs to it.
    Any,
}

// How frames are read: a framing with its choice.
#[derive(Clone, Copy, Debug, PartialEq, Eq)]
pub enum Format {
    Binary(Footer),
    Ascii(Ending),
}

impl Framing {
    // The format in which a framing is read where none is named: in binary framing the footer is optional, in ASCII framing the ending is CR LF.
    // Kept: a method and no From: `framing.format()` says what it gives, which a conversion to a format, of which a framing has two, would not.
    pub fn format(self) -> Format
        ensures { result ≡ format_of self }
    {
        match self {
            Framing::Binary => Format::Binary(Footer::Optional),
            Framing::Ascii => Format::Ascii(Ending::CrLf),
        }
    }
}

// What stands at the front of a slice.
#[derive(Clone, Copy)]
pub enum Judged {
    // The bytes end before a decision.
    Undecided,
    // A check failed at the last of `judged` bytes. Of `extract` also: the buffer is too short, and no byte was judged.
    Failed { refusal: Refusal, judged: usize },
    // A frame of `used` bytes, without an optional one that follows, with a payload of `len` bytes.
    Frame { used: usize, len: usize },
}

impl Judged {
    // A check that failed at the last of `judged` bytes.
    pub(crate) fn failed(refusal: Refusal, judged: usize) -> Judged
        ensures { result ≡ Failed refusal judged }
    {
        Judged::Failed { refusal, judged }
    }
}

// Judges the ending of a frame with a payload of `len` bytes, whose checksum, which is right, is complete with the byte at `end`: the byte behind it is to be `last`.
pub(crate) fn judge_ending(s: &[u8], end: usize, last: u8, len: usize) -> Judged
    requires { end < length s.now }
    ensures { Ended s.now end true last len result }
{
    if s.len() <= end + 1 {
        return Judged::Undecided;
    }
    if s[end + 1] != last {
        return Judged::failed(Refusal::Footer, end + 2);
    }
    Judged::Frame { used: end + 2, len }
}

// Whether the byte before `end` is a CR; the first byte where `end` is 0, and false where there is none.
fn is_behind_cr(s: &[u8], end: usize) -> bool
    ensures { result ≡ (slice_index s.now (end - 1) == carriage_return) }
{
    let last = end.saturating_sub(1);
    last < s.len() && s[last] == 0x0D
}

// Whether an optional byte may follow a frame that was judged complete with the byte before `end`. For that byte the first stands where `end` is 0, and 0 where
// s has none there.
pub fn may_follow(format: Format, s: &[u8], end: usize) -> bool
    ensures { result ≡ is_open format end s.now }
{
    match format {
        Format::Binary(Footer::Optional) => true,
        Format::Binary(Footer::Required) | Format::Ascii(Ending::CrLf) => false,
        Format::Ascii(Ending::Any) => is_behind_cr(s, end),
    }
}

// The optional byte of a format, where it has one.
fn optional_of(format: Format) -> Option<u8>
    ensures { MatchOption result ((b : ℕ) → is_optional format b ≡ false) (λ x. (b : ℕ) → is_optional format b ≡ (b == x)) }
{
    match format {
        Format::Binary(Footer::Optional) => Some(0x04),
        Format::Ascii(Ending::Any) => Some(0x0A),
        Format::Binary(Footer::Required) | Format::Ascii(Ending::CrLf) => None,
    }
}

// How many bytes at the front of s, one or none, belong to the frame before them; none where `follows` says that none may.
pub fn absorbed(format: Format, follows: bool, s: &[u8]) -> usize
    ensures { result ≡ absorbed format follows s.now }
{
    usize::from(follows && !s.is_empty() && optional_of(format) == Some(s[0]))
}

// The place behind a payload of `len` bytes in a frame.
fn payload_end(format: Format, len: usize) -> usize
    requires { len ≤ 256 }
    ensures { result ≡ payload_end format len }
{
    match format {
        Format::Binary(_) => 4 + len,
        Format::Ascii(_) => 1 + 2 * len,
    }
}

// Puts what stands in s for a payload of `len` bytes into the front of buf.
pub(crate) fn take_out(format: Format, s: &[u8], len: usize, buf: &mut [u8])
    requires len_in_bounds { payload_end format len ≤ length s.now }
    requires len_in_bounds_2 { len ≤ length buf.old }
    ensures value { buf.new ≡ in_front (bytes_at format s.now len) buf.old }
    ensures payload { HasPayload format s.now len → buf.new ≡ in_front (payload_at format s.now len) buf.old }
{
    match format {
        Format::Binary(_) => binary::unpack(s, len, buf),
        Format::Ascii(_) => ascii::unpack(s, len, buf),
    }
}

// Puts the payload of `len` bytes of the frame at the front of s, which `judge` has found there, into the front of buf, whose other bytes stay, and says
// whether it did. It does not where buf has under 256 bytes, where `len` is over 256, and where s is too short for such a payload; buf then stays as it is.
// Nothing is judged again: of characters that are no digits bytes are made all the same.
pub fn unpack(format: Format, s: &[u8], len: usize, buf: &mut [u8]) -> bool
    ensures value { result ≡ unpacks format s.now len buf.old }
    ensures buf_after { buf.new ≡ unpacked format s.now len buf.old }
{
    if buf.len() < 256 || 256 < len || s.len() < payload_end(format, len) {
        return false;
    }
    take_out(format, s, len, buf);
    true
}

// Judges the front of s. But for `Undecided`, whatever bytes come behind s make no difference.
pub fn judge(format: Format, s: &[u8]) -> Judged
    ensures { judge format s.now ≡ verdict_of format s.now result }
{
    match format {
        Format::Binary(footer) => binary::judge(footer, s),
        Format::Ascii(ending) => ascii::judge(ending, s),
    }
}

// Judges the front of s, and puts the payload of a frame into the front of buf, whose other bytes stay. A buffer under 256 bytes is refused with 13, with no
// byte judged; it and any other that gets no payload stays as it is.
pub fn extract(format: Format, s: &[u8], buf: &mut [u8]) -> Judged
    ensures s_value { with_room buf.old (judge format s.now) ≡ verdict_of format s.now result }
    ensures buf_after { buf.new ≡ in_front (payload_in (with_room buf.old (judge format s.now))) buf.old }
    ensures room_value { 256 ≤ length buf.old → judge format s.now ≡ verdict_of format s.now result }
    ensures room_buf_after { 256 ≤ length buf.old → buf.new ≡ in_front (payload_in (judge format s.now)) buf.old }
{
    if buf.len() < 256 {
        return Judged::failed(Refusal::Buffer, 0);
    }
    match format {
        Format::Binary(footer) => binary::extract(footer, s, buf),
        Format::Ascii(ending) => ascii::extract(ending, s, buf),
    }
}

// The length of a frame with a payload of `len` bytes.
pub(crate) fn frame_len(framing: Framing, len: usize) -> usize
    requires { len ≤ 256 }
    ensures { result ≡ frame_length framing len }
{
    match framing {
        Framing::Binary => len + 6,
        Framing::Ascii => 2 * len + 5,
    }
}

// Writes the frame with this payload into the front of buf.
pub(crate) fn pack(framing: Framing, payload: &[u8], buf: &mut [u8])
    requires payload_len_bound { length payload.now ≤ 256 }
    requires payload_in_bounds { frame_length framing (length payload.now) ≤ length buf.old }
    ensures { buf.new ≡ in_front (layout framing payload.now) buf.old }
{
    match framing {
        Framing::Binary => binary::pack(payload, buf),
        Framing::Ascii => ascii::pack(payload, buf),
    }
}
