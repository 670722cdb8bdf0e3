// Binary framing.
ghost use Rattle.std.specs.Prelude.{◌≡◌, ◌+◌, ◌*◌, ◌/◌, ◌<◌, ◌≤◌, length, take, drop};
ghost use Rattle.frame.specs.declared.framing.Format.TheVariants.{Binary};
ghost use Rattle.frame.specs.declared.framing.Framing.TheVariants.{Binary as BinaryFraming};
ghost use Rattle.frame.specs.Binary.{xor_of, body, behind_checksum};
ghost use Rattle.frame.specs.Checks.{run, behind, payload_in};
ghost use Rattle.frame.specs.DigitRuns.{bytes_xor};
ghost use Rattle.frame.specs.Framing.{judge, in_front, layout};
ghost use Rattle.frame.specs.Judged.{verdict_of};

use crate::framing::{Footer, Judged, judge_ending};
use crate::refusal::Refusal;

// The XOR of the words of 8 bytes at the front of s, all that are whole.
fn xor_words(s: &[u8]) -> u64
    ensures { bytes_xor 8 result ≡ xor_of (take (8 * (length s.now / 8)) s.now) }
{
    let (words, _) = s.as_chunks::<8>();
    let mut sum = 0;
    // Kept: a `for`, since with `fold` it stayed open that the result is the XOR of all words (`returns`).
    for word in words {
        sum ^= u64::from_le_bytes(*word);
    }
    sum
}

// The XOR of a word's bytes. A shift lays the upper half over the lower: of 8 bytes, then of the 4 that are left, then of 2.
fn folded(w: u64) -> u8
    ensures { result ≡ bytes_xor 8 w }
{
    let half = w ^ (w >> 32);
    let quarter = half ^ (half >> 16);
    // Kept: the low byte by a remainder, which `to_le_bytes` would say no plainer.
    ((quarter ^ (quarter >> 8)) % 256) as u8
}

// The XOR of all bytes: by words, then the rest.
pub(crate) fn xor_of(s: &[u8]) -> u8
    ensures { result ≡ xor_of s.now }
{
    let (_, rest) = s.as_chunks::<8>();
    rest.iter().fold(folded(xor_words(s)), |sum, b| sum ^ *b)
}

// Judges what stands behind the length `len`: the payload, its checksum and, where it is required, the footer.
fn judge_body(footer: Footer, s: &[u8], len: usize) -> Judged
    requires in_bounds { 4 ≤ length s.now }
    requires len_bound { len ≤ 256 }
    ensures { behind 4 (run (body (behind_checksum footer) len) (drop 4 s.now)) ≡ verdict_of (Binary footer) s.now result }
{
    let end = 4 + len;
    if s.len() <= end {
        return Judged::Undecided;
    }
    if xor_of(&s[4..end]) != s[end] {
        return Judged::failed(Refusal::Checksum, end + 1);
    }
    match footer {
        Footer::Optional => Judged::Frame { used: end + 1, len },
        Footer::Required => judge_ending(s, end, 0x04, len),
    }
}

// Judges the front of s: the start bytes, the length, and what stands behind them.
pub(crate) fn judge(footer: Footer, s: &[u8]) -> Judged
    ensures { judge (Binary footer) s.now ≡ verdict_of (Binary footer) s.now result }
{
    let n = s.len();
    if n == 0 {
        return Judged::Undecided;
    }
    if s[0] != 0xA5 {
        return Judged::failed(Refusal::Start, 1);
    }
    if n == 1 {
        return Judged::Undecided;
    }
    if s[1] != 0x5A {
        return Judged::failed(Refusal::Start, 2);
    }
    if n < 4 {
        return Judged::Undecided;
    }
    let word = u16::from_be_bytes([s[2], s[3]]);
    if word < 0x8001 || 0x8100 < word {
        return Judged::failed(Refusal::Length, 4);
    }
    judge_body(footer, s, usize::from(word - 0x8000))
}

// Puts the `len` bytes behind the first four into the front of buf.
pub(crate) fn unpack(s: &[u8], len: usize, buf: &mut [u8])
    requires len_in_bounds { 4 + len ≤ length s.now }
    requires len_in_bounds_2 { len ≤ length buf.old }
    ensures { buf.new ≡ in_front (take len (drop 4 s.now)) buf.old }
{
    octets::copy(&s[4..4 + len], buf);
}

// Judges the front of s, and puts the payload of a frame into the front of buf.
pub(crate) fn extract(footer: Footer, s: &[u8], buf: &mut [u8]) -> Judged
    requires { 256 ≤ length buf.old }
    ensures s_value { judge (Binary footer) s.now ≡ verdict_of (Binary footer) s.now result }
    ensures buf_after { buf.new ≡ in_front (payload_in (judge (Binary footer) s.now)) buf.old }
{
    let verdict = judge(footer, s);
    if let Judged::Frame { len, .. } = verdict {
        unpack(s, len, buf);
    }
    verdict
}

// Writes the frame with the payload p into the front of buf.
pub(crate) fn pack(p: &[u8], buf: &mut [u8])
    requires p_len_bound { length p.now ≤ 256 }
    requires p_in_bounds { length p.now + 6 ≤ length buf.old }
    ensures { buf.new ≡ in_front (layout BinaryFraming p.now) buf.old }
{
    let len = p.len();
    let end = 4 + len;
    let word = (0x8000 + len as u16).to_be_bytes();
    octets::copy(&[0xA5, 0x5A, word[0], word[1]], buf);
    octets::copy(p, &mut buf[4..]);
    buf[end] = xor_of(p);
    buf[end + 1] = 0x04;
}
