// Bytes as hex digits, which are 0-9 and A-F.
// Kept: no use of the digits of the crate frame, so that a test program does not read and print with the code that it tests.
ghost use Rattle.std.specs.Prelude.{◌≡◌, ◌<◌, min, length, Some, [], ◌∷◌};
ghost use Rattle.std.specs.Fmt.{WritesOnOk};
ghost use Rattle.std.proofs.Math.Seq.{paste};
ghost use Rattle.io.specs.Counts.{IsPrefixLen};
ghost use Rattle.console.specs.Hex.{digit_value, hex, pair_bytes};

use crate::part::rest;
use std::fmt;

// Prints as two hex digits for each byte.
#[derive(Clone, Copy)]
pub struct Hex<'a>(pub &'a [u8]);

impl fmt::Display for Hex<'_> {
    ghost output = { λ h. Some (hex h.0.now) };

    fn fmt<W: fmt::Write>(&self, f: &mut fmt::Formatter<W>) -> fmt::Result {
        for b in self.0 {
            write_byte(*b, f)?;
        }
        Ok(())
    }
}

// Writes the two digits of a byte.
#[tactic(auto, using(std::proofs::lemmas::Fmt::hex_byte), unfolding(crate::specs::Hex::digit_of))]
fn write_byte<W: fmt::Write>(b: u8, f: &mut fmt::Formatter<W>) -> fmt::Result
    ensures { WritesOnOk W.write_str_gives f.old result (hex (b ∷ [])) f.new }
{
    write!(f, "{b:02X}")
}

// Prints as the same digits, or as `-` where there are no bytes.
#[derive(Clone, Copy)]
pub struct HexField<'a>(pub &'a [u8]);

impl fmt::Display for HexField<'_> {
    fn fmt<W: fmt::Write>(&self, f: &mut fmt::Formatter<W>) -> fmt::Result {
        if self.0.is_empty() {
            return f.write_str("-");
        }
        write!(f, "{}", Hex(self.0))
    }
}

// Puts the bytes that hex pairs with a character between stand for into the front of bytes, as many as fit, and gives how many there are.
pub fn hex_bytes(pairs: &[u8], bytes: &mut [u8]) -> usize
    ensures prefix_len { IsPrefixLen result bytes.new }
    ensures value { result ≡ min (length (pair_bytes pairs.now)) (length bytes.old) }
    ensures bytes_after { bytes.new ≡ paste bytes.old 0 (pair_bytes pairs.now) result }
{
    let mut left = pairs;
    for n in 0..bytes.len() {
        let [high, low, ..] = left else {
            return n;
        };
        bytes[n] = 16 * digit_value(*high) + digit_value(*low);
        left = rest(left, 3);
    }
    bytes.len()
}

// What a hex digit stands for; 0 for any other character.
#[tactic(auto, unfolding(crate::specs::Hex::digit_value))]
fn digit_value(c: u8) -> u8
    ensures upper_bound { result < 16 }
    ensures value { result ≡ digit_value c }
{
    match c {
        b'0'..=b'9' => c - b'0',
        b'A'..=b'F' => c - b'A' + 10,
        _ => 0,
    }
}
