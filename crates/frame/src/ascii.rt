// ASCII framing.
ghost use Rattle.std.specs.Prelude.{◌≡◌, ◌+◌, ◌*◌, ◌%◌, ◌<◌, ◌≤◌, true, length, take, drop, slice_index};
ghost use Rattle.frame.specs.declared.framing.Ending.{Ending};
ghost use Rattle.frame.specs.declared.framing.Format.TheVariants.{Ascii};
ghost use Rattle.frame.specs.declared.framing.Framing.TheVariants.{Ascii as AsciiFraming};
ghost use Rattle.frame.specs.Checks.{run, behind, payload_in};
ghost use Rattle.frame.specs.Hex.{sum_of};
ghost use Rattle.frame.specs.Ascii.{ends_digits, hex_digits, line_ending};
ghost use Rattle.frame.specs.Framing.{judge, in_front, layout};
ghost use Rattle.frame.specs.DigitRuns.{Digits, digit_run};
ghost use Rattle.frame.specs.Judged.{decoded, unhexed, verdict_of};
ghost use Rattle.frame.specs.Parts.{Short};

use crate::framing::{Ending, Judged, judge_ending};
use crate::refusal::Refusal;
use crate::{digit, hex};

// Whether digits end, and are judged, at the character c.
fn ends_digits(ending: Ending, c: u8) -> bool
    ensures { result ≡ ends_digits ending c }
{
    match ending {
        Ending::CrLf => c == 0x0D,
        Ending::Any => c == 0x0D || c == 0x0A,
    }
}

// The characters at the front of which a frame is judged, with the count of the digits behind the first of them, up to one more than the most that a frame has.
#[derive(Clone, Copy)]
struct Line<'a> {
    s: &'a [u8],
    count: usize,
    ghost counted: { count ≡ digit_run 515 (drop 1 s.now) },
}

impl<'a> Line<'a> {
    fn new(s: &'a [u8]) -> Line<'a>
        ensures { result.s.now ≡ s.now }
    {
        let count = match s.split_first() {
            Some((_, rest)) => digit::digit_run(rest),
            None => 0,
        };
        Line { s, count }
    }

    // Judges the sum of the bytes that the `count` digits behind the colon stand for; under the ending CR LF also the character behind the one that ends them.
    fn judge_end(self, ending: Ending, total: u32) -> Judged
        requires le_count { 4 ≤ self.count }
        requires count_bound { self.count ≤ 514 }
        requires count_value_2 { self.count % 2 ≡ 0 }
        requires count_in_bounds { 1 + self.count < length self.s.now }
        requires count_value_3 { ends_digits ending (slice_index self.s.now (1 + self.count)) ≡ true }
        requires total_value { total ≡ sum_of (decoded (take self.count (drop 1 self.s.now))) }
        ensures { behind 1 (run (hex_digits 514 (line_ending ending)) (drop 1 self.entry.s.now)) ≡ verdict_of (Ascii ending) self.entry.s.now result }
    {
        let Line { s, count } = self;
        let end = 1 + count;
        let len = count / 2 - 1;
        if total % 256 != 0 {
            return Judged::failed(Refusal::Checksum, end + 1);
        }
        match ending {
            Ending::CrLf => judge_ending(s, end, 0x0A, len),
            Ending::Any => Judged::Frame { used: end + 1, len },
        }
    }

    // Judges what stands behind the colon, where `count` digits do.
    fn judge_digits(self, ending: Ending) -> Judged
        requires in_bounds { 1 ≤ length self.s.now }
        ensures { behind 1 (run (hex_digits 514 (line_ending ending)) (drop 1 self.entry.s.now)) ≡ verdict_of (Ascii ending) self.entry.s.now result }
    {
        let Line { s, count } = self;
        let n = s.len();
        let end = 1 + count;
        if 514 < count {
            return Judged::failed(Refusal::Length, 516);
        }
        if n <= end {
            return Judged::Undecided;
        }
        if !ends_digits(ending, s[end]) {
            return Judged::failed(Refusal::Character, end + 1);
        }
        if count < 4 || count % 2 != 0 {
            return Judged::failed(Refusal::Length, end + 1);
        }
        self.judge_end(ending, hex::pair_sum(&s[1..end]))
    }

    // Judges the front of s, where `count` digits stand behind the first character.
    fn judge(self, ending: Ending) -> Judged
        ensures { judge (Ascii ending) self.entry.s.now ≡ verdict_of (Ascii ending) self.entry.s.now result }
    {
        let Line { s, count } = self;
        if s.is_empty() {
            return Judged::Undecided;
        }
        if s[0] != 0x3A {
            return Judged::failed(Refusal::Start, 1);
        }
        self.judge_digits(ending)
    }

    // Whether s begins with a colon, has room for an even count of digits, for a payload of 16 to 31 bytes and its checksum, and a CR behind them, which ends
    // digits under either ending. A frame that ends with LF alone is judged like a longer one.
    fn is_short(self) -> bool
        ensures { (result ≡ true) → (ending : Ending) → Short ending self.entry.s.now self.entry.count }
    {
        let Line { s, count } = self;
        matches!(count, 34..=64)
            && count % 2 == 0
            && 1 + count < s.len()
            && s[0] == 0x3A
            && s[1 + count] == 0x0D
    }

    // Judges a short frame, and puts its payload into the front of buf. It is decoded once, before its sum is known: the first 16 bytes and the last
    // 16, which may overlap them; the very last is the checksum.
    fn extract_short(self, ending: Ending, buf: &mut [u8]) -> Judged
        requires short { Short ending self.s.now self.count }
        requires in_bounds { 256 ≤ length buf.old }
        ensures s_value { judge (Ascii ending) self.entry.s.now ≡ verdict_of (Ascii ending) self.entry.s.now result }
        ensures buf_after { buf.new ≡ in_front (payload_in (judge (Ascii ending) self.entry.s.now)) buf.old }
    {
        let Line { s, count } = self;
        let n = count / 2;
        let end = 1 + count;
        let two = hex::decode_two(&s[1..end], count - 32);
        let whole = &two[..];
        let verdict = self.judge_end(ending, hex::sum_of_two(whole, 48 - n));
        if let Judged::Frame { .. } = verdict {
            octets::copy(&whole[..16], buf);
            octets::copy(&whole[16..31], &mut buf[n - 16..]);
        }
        verdict
    }
}

// Judges the front of s.
pub(crate) fn judge(ending: Ending, s: &[u8]) -> Judged
    ensures { judge (Ascii ending) s.now ≡ verdict_of (Ascii ending) s.now result }
{
    Line::new(s).judge(ending)
}

// Puts the bytes that the `len` pairs of characters behind the first stand for into the front of buf.
pub(crate) fn unpack(s: &[u8], len: usize, buf: &mut [u8])
    requires len_in_bounds { 1 + 2 * len ≤ length s.now }
    requires len_in_bounds_2 { len ≤ length buf.old }
    ensures value { buf.new ≡ in_front (unhexed (take (2 * len) (drop 1 s.now))) buf.old }
    ensures digits { Digits (take (2 * len) (drop 1 s.now)) → buf.new ≡ in_front (decoded (take (2 * len) (drop 1 s.now))) buf.old }
{
    hex::decode(&s[1..1 + 2 * len], buf);
}

// Judges the front of s, and puts the payload of a frame into the front of buf.
pub(crate) fn extract(ending: Ending, s: &[u8], buf: &mut [u8]) -> Judged
    requires { 256 ≤ length buf.old }
    ensures s_value { judge (Ascii ending) s.now ≡ verdict_of (Ascii ending) s.now result }
    ensures buf_after { buf.new ≡ in_front (payload_in (judge (Ascii ending) s.now)) buf.old }
{
    let line = Line::new(s);
    if line.is_short() {
        return line.extract_short(ending, buf);
    }
    let verdict = line.judge(ending);
    if let Judged::Frame { len, .. } = verdict {
        unpack(s, len, buf);
    }
    verdict
}

// Writes the frame with the payload p into the front of buf.
pub(crate) fn pack(p: &[u8], buf: &mut [u8])
    requires p_len_bound { length p.now ≤ 256 }
    requires p_in_bounds { 2 * length p.now + 5 ≤ length buf.old }
    ensures { buf.new ≡ in_front (layout AsciiFraming p.now) buf.old }
{
    let len = p.len();
    let end = 1 + 2 * len;
    let checksum = ((hex::byte_sum(p) % 256) as u8).wrapping_neg();
    buf[0] = 0x3A;
    hex::encode(buf, 1, p);
    hex::put_hex(buf, end, checksum);
    buf[end + 2] = 0x0D;
    buf[end + 3] = 0x0A;
}
