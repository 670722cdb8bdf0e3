// Bytes as two digits each, the upper half first.
ghost use Rattle.std.specs.Prelude.{◌≡◌, ◌+◌, ◌-◌, ◌*◌, ◌/◌, ◌%◌, ◌<◌, ◌≤◌, [], ◌∷◌, ◌++◌, length, nat_le, cond, take, drop, slice_index, slice_range, slice_set};
ghost use Rattle.std.proofs.Math.Seq.{paste};
ghost use Rattle.frame.specs.Digit.{digit_value, digit_of};
ghost use Rattle.frame.specs.Hex.{hex, sum_of};
ghost use Rattle.frame.specs.Framing.{in_front};
ghost use Rattle.frame.specs.DigitRuns.{Digits};
ghost use Rattle.frame.specs.Judged.{decoded, byte_of, unhexed};

use crate::digit::digit_value;

// The byte that two digits stand for. Of other characters it is some byte, so that nothing is asked of them.
fn byte_of(pair: [u8; 2]) -> u8
    ensures value { result ≡ byte_of (slice_index pair 0) (slice_index pair 1) }
    ensures digits { Digits pair → result ≡ digit_value (slice_index pair 0) * 16 + digit_value (slice_index pair 1) }
{
    (digit_value(pair[0]) % 16 * 16).wrapping_add(digit_value(pair[1]))
}

// Puts the bytes that the digits of src stand for into the front of dst, one by one.
fn decode_bytes(src: &[u8], dst: &mut [u8])
    requires { length src.now / 2 ≤ length dst.old }
    ensures value { dst.new ≡ in_front (unhexed src.now) dst.old }
    ensures digits { Digits src.now → dst.new ≡ in_front (decoded src.now) dst.old }
{
    let (pairs, _) = src.as_chunks::<2>();
    for (i, pair) in pairs.iter().enumerate() {
        dst[i] = byte_of(*pair);
    }
}

// The 16 bytes that 32 digits stand for, in an array of their own: such a loop is vectorised, stores into a slice are not.
fn decode_block(s: &[u8]) -> [u8; 16]
    requires { length s.now ≡ 32 }
    ensures value { result ≡ unhexed s.now }
    ensures digits { Digits s.now → result ≡ decoded s.now }
{
    let mut block = [0u8; 16];
    decode_bytes(s, &mut block);
    block
}

// The sum of the bytes.
pub(crate) fn byte_sum(s: &[u8]) -> u32
    requires { length s.now ≤ 256 }
    ensures { result ≡ sum_of s.now }
{
    s.iter().map(|b| u32::from(*b)).sum()
}

// The same, of the last 8 at once, where there are so many.
fn end_sum(s: &[u8]) -> u32
    requires { length s.now ≤ 256 }
    ensures { result ≡ sum_of s.now }
{
    match s.split_last_chunk::<8>() {
        Some((front, last)) => byte_sum(last) + byte_sum(front),
        None => byte_sum(s),
    }
}

// The sum of the bytes that the digits of s stand for, one by one.
fn tail_sum(s: &[u8]) -> u32
    requires { length s.now ≤ 514 }
    ensures value { result ≡ sum_of (unhexed s.now) }
    ensures upper_bound { result ≤ 255 * length s.now }
    ensures digits { Digits s.now → result ≡ sum_of (decoded s.now) }
{
    let (pairs, _) = s.as_chunks::<2>();
    let mut sum = 0;
    // Kept: a `for`, since with `map` and `sum` it stayed open that the sum fits (`sum-requires-clause-fits`).
    for pair in pairs {
        sum += u32::from(byte_of(*pair));
    }
    sum
}

// The same, by a block of 8 bytes first where there is one: its length is known, so that its sum is vectorised.
fn rest_sum(s: &[u8]) -> u32
    requires { length s.now ≤ 514 }
    ensures value { result ≡ sum_of (unhexed s.now) }
    ensures digits { Digits s.now → result ≡ sum_of (decoded s.now) }
{
    match s.split_first_chunk::<16>() {
        Some((block, rest)) => tail_sum(block) + tail_sum(rest),
        None => tail_sum(s),
    }
}

// The sum of the bytes of `rest`, the digits of s behind whole blocks of 16 bytes: by the last 16 bytes of s, which overlap a block before them. At most one
// byte is summed by itself.
fn behind_sum(s: &[u8], rest: &[u8]) -> u32
    requires s_len_bound { length s.now ≤ 514 }
    requires rest_value { rest.now ≡ drop (length s.now / 32 * 32) s.now }
    ensures { result ≡ sum_of (unhexed rest.now) }
{
    if s.len() < 32 {
        return rest_sum(s);
    }
    if rest.len() < 4 {
        return tail_sum(rest);
    }
    let n = s.len() / 2;
    let last = decode_block(&s[2 * n - 32..2 * n]);
    end_sum(&last[16 - n % 16..])
}

// The sum of the bytes that the digits of s stand for: by blocks of 16 bytes, and then the rest. Each block is decoded before it is summed: a loop over sums
// of blocks is vectorised across the blocks, byte by byte. It stays a function, so that the tests before it are inlined where they are made.
#[inline(never)]
pub(crate) fn pair_sum(s: &[u8]) -> u32
    requires { length s.now ≤ 514 }
    ensures value { result ≡ sum_of (unhexed s.now) }
    ensures digits { Digits s.now → result ≡ sum_of (decoded s.now) }
{
    let (blocks, rest) = s.as_chunks::<32>();
    let mut sum: u32 = 0;
    // Kept: a `for`, since with `map` and `sum` it stayed open that the sum fits (`sum-requires-clause-fits`).
    for block in blocks {
        sum += byte_sum(&decode_block(block));
    }
    sum + behind_sum(s, rest)
}

// The same as `decode_bytes`, by blocks of 16 bytes. The last one ends with the last byte and may overlap the one before it.
fn decode_blocks(src: &[u8], dst: &mut [u8])
    requires in_bounds { 32 ≤ length src.now }
    requires src_in_bounds { length src.now / 2 ≤ length dst.old }
    ensures value { dst.new ≡ in_front (unhexed src.now) dst.old }
    ensures digits { Digits src.now → dst.new ≡ in_front (decoded src.now) dst.old }
{
    let n = src.len() / 2;
    let (blocks, _) = src[..2 * n - 1].as_chunks::<32>();
    for (i, block) in blocks.iter().enumerate() {
        octets::copy(&decode_block(block), &mut dst[16 * i..]);
    }
    octets::copy(&decode_block(&src[2 * n - 32..2 * n]), &mut dst[n - 16..]);
}

// Puts the bytes that the digits of src stand for into the front of dst.
pub(crate) fn decode(src: &[u8], dst: &mut [u8])
    requires { length src.now / 2 ≤ length dst.old }
    ensures value { dst.new ≡ in_front (unhexed src.now) dst.old }
    ensures digits { Digits src.now → dst.new ≡ in_front (decoded src.now) dst.old }
{
    if src.len() < 32 {
        decode_bytes(src, dst);
    } else {
        decode_blocks(src, dst);
    }
}

// The 16 bytes whose digits are in the front of s, and the 16 whose digits begin at `last`.
pub(crate) fn decode_two(s: &[u8], last: usize) -> [u8; 32]
    requires { last + 32 ≤ length s.now }
    ensures value { result ≡ unhexed (take 32 s.now) ++ unhexed (take 32 (drop last s.now)) }
    ensures digits { Digits s.now → result ≡ decoded (take 32 s.now) ++ decoded (take 32 (drop last s.now)) }
{
    let mut two = [0u8; 32];
    octets::copy(&decode_block(&s[..32]), &mut two);
    octets::copy(&decode_block(&s[last..last + 32]), &mut two[16..]);
    two
}

// The sum of the first 16 bytes of two, and of those from `from` on.
pub(crate) fn sum_of_two(two: &[u8], from: usize) -> u32
    requires two_len { length two.now ≡ 32 }
    requires le_from { 16 ≤ from }
    requires from_bound { from ≤ 32 }
    ensures { result ≡ sum_of (take 16 two.now) + sum_of (drop from two.now) }
{
    byte_sum(&two[..16]) + end_sum(&two[from..])
}

// The two hex digits of b, that of its upper half first.
pub fn hex_of(b: u8) -> [u8; 2]
    ensures { result ≡ hex (b ∷ []) }
{
    // Both halves stand in one number, the upper one in its low byte. A digit is the half and 0x30, and 7 more for a letter: where adding 6 carries.
    let w = u32::from(b);
    let halves = w / 16 + w % 16 * 256;
    let letters = (halves + 0x0606) / 16 & 0x0101;
    ((halves + 0x3030 + letters * 7) as u16).to_le_bytes()
}

// Puts the two digits of b into dst at `at`.
pub(crate) fn put_hex(dst: &mut [u8], at: usize, b: u8)
    requires { at + 1 < length dst.old }
    ensures { dst.new ≡ slice_set (slice_set dst.old at (digit_of (b / 16))) (at + 1) (digit_of (b % 16)) }
{
    let pair = hex_of(b);
    dst[at] = pair[0];
    dst[at + 1] = pair[1];
}

// Puts the digits of src into dst from `at` on.
pub(crate) fn encode(dst: &mut [u8], at: usize, src: &[u8])
    requires { at + 2 * length src.now ≤ length dst.old }
    ensures { dst.new ≡ paste dst.old at (hex src.now) (2 * length src.now) }
{
    for (i, b) in src.iter().enumerate() {
        put_hex(dst, at + 2 * i, *b);
    }
}

// Puts the digits of src into the front of dst, whose other bytes stay, and says whether it did. It does not where dst has no room for them, and then stays as
// it is.
pub fn encode_hex(src: &[u8], dst: &mut [u8]) -> bool
    ensures value { result ≡ nat_le (length (hex src.now)) (length dst.old) }
    ensures dst_after { dst.new ≡ cond (nat_le (length (hex src.now)) (length dst.old)) (in_front (hex src.now) dst.old) dst.old }
{
    if dst.len() / 2 < src.len() {
        return false;
    }
    encode(dst, 0, src);
    true
}
