// Reading and writing a single frame.
ghost use Rattle.frame.specs.Framing.{format_of};
ghost use Rattle.frame.specs.Single.{Reads, Writes};

use crate::framing::{
    Format, Framing, Judged, absorbed, frame_len, judge, may_follow, pack, take_out,
};
use crate::refusal::Refusal;

// A frame of `used` bytes, with a payload of `len` bytes in the front of the buffer.
#[derive(Clone, Copy, Debug, PartialEq, Eq)]
pub struct FrameRead {
    pub used: usize,
    pub len: usize,
}

// Reads the frame at the front of s in this format. Its payload goes to the front of buf, whose other bytes stay; an optional byte that follows it, a footer
// that may be left out or under any ending the LF behind a CR, counts as used. A refusal leaves all of buf: 1 to 6 where s does not begin with a frame, then
// 13 where buf is shorter than the payload.
#[tactic(auto, using(crate::proofs::Singles::judged_payload_there, crate::proofs::Singles::judged_there))]
pub fn read_frame_as(format: Format, s: &[u8], buf: &mut [u8]) -> Result<FrameRead, Refusal>
    ensures { Reads format s.now buf.old result buf.new }
{
    match judge(format, s) {
        Judged::Undecided => Err(Refusal::Cut),
        Judged::Failed { refusal, .. } => Err(refusal),
        Judged::Frame { len, .. } if buf.len() < len => Err(Refusal::Buffer),
        Judged::Frame { used, len } => {
            take_out(format, s, len, buf);
            let more = absorbed(format, may_follow(format, s, used), &s[used..]);
            let used = used + more;
            Ok(FrameRead { used, len })
        }
    }
}

// The same in the framing's default format: in binary framing the footer may be left out, in ASCII framing the ending is CR LF.
pub fn read_frame(framing: Framing, s: &[u8], buf: &mut [u8]) -> Result<FrameRead, Refusal>
    ensures { Reads (format_of framing) s.now buf.old result buf.new }
{
    read_frame_as(framing.format(), s, buf)
}

// Writes a payload as a frame to the front of buf, whose other bytes stay, and gives the frame's length. A refusal leaves all of buf: 14 where the payload is
// empty or longer than 256 bytes, then 13 where buf is shorter than the frame.
#[tactic(auto, using(crate::proofs::Singles::writes_empty, crate::proofs::Singles::writes_long))]
pub fn write_frame(framing: Framing, payload: &[u8], buf: &mut [u8]) -> Result<usize, Refusal>
    ensures { Writes framing payload.now buf.old result buf.new }
{
    let len = payload.len();
    if len == 0 || 256 < len {
        return Err(Refusal::Payload);
    }
    let size = frame_len(framing, len);
    if buf.len() < size {
        return Err(Refusal::Buffer);
    }
    pack(framing, payload, buf);
    Ok(size)
}
