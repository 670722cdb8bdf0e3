// The words and numbers of a line.
ghost use Rattle.std.specs.Prelude.{◌≡◌, ◌<◌, ◌==◌, position};
ghost use Rattle.console.specs.Text.{behind_space, number_from};

use crate::part::rest;

// What stands behind the first space of a line, or nothing where there is none.
pub fn next_word(line: &[u8]) -> &[u8]
    ensures { result.now ≡ behind_space line.now }
{
    match find(line, b' ') {
        Some(place) => rest(line, place + 1),
        None => &[],
    }
}

// The place of the first such byte of s.
fn find(s: &[u8], byte: u8) -> Option<usize>
    ensures value { result ≡ position (λ c. c == byte) s.now }
{
    s.iter().position(|c| *c == byte)
}

// The number that the decimal digits at the front of s stand for. Digits behind its sixth are left out.
pub fn number(s: &[u8]) -> usize
    ensures value { result ≡ number_from 0 s.now }
    ensures upper_bound { result < 1000000 }
{
    let mut value = 0;
    for c in s {
        if !c.is_ascii_digit() {
            break;
        }
        if value < 100_000 {
            value = 10 * value + usize::from(*c - b'0');
        }
    }
    value
}
