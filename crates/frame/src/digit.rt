// Digits, 0-9 and A-F: their values, and how many stand at the front of a slice.
ghost use Rattle.std.specs.Prelude.{◌≡◌, ◌+◌, ◌-◌, ◌<◌, ◌≤◌, true, length};
ghost use Rattle.frame.specs.Digit.{is_digit, digit_value};
ghost use Rattle.frame.specs.DigitRuns.{digit_run};
ghost use Rattle.frame.specs.Judged.{half_of};

// Whether c is one of 0-9 A-F. Without a branch, so that a block of characters is tested at once.
fn is_digit(c: u8) -> bool
    ensures { result ≡ is_digit c }
{
    ((0x30 <= c) & (c <= 0x39)) | ((0x41 <= c) & (c <= 0x46))
}

// The value of a digit: the low half of 0-9, and nine more for A-F, whose upper half is 4. Of other characters it is some number.
pub(crate) fn digit_value(c: u8) -> u8
    ensures value { result ≡ half_of c }
    ensures upper_bound { result < 43 }
    ensures digit { is_digit c ≡ true → result ≡ digit_value c }
    ensures digit_bound { is_digit c ≡ true → result < 16 }
{
    c % 16 + 9 * (c / 64)
}

// How many digits stand at the front of 8 characters. All are tested at once, each in its own byte of a number: after the XOR with 0x30 the digits are 0..9
// and 0x71..0x76, the three sums reach a byte's top bit from 10, 0x71 and 0x77 on, and so their XOR has that bit outside the two ranges. A byte whose own
// top bit is set is no digit either, and the lowest top bit that is left is that of the first other character.
fn word_run(chars: &[u8; 8]) -> usize
    ensures { result ≡ digit_run 8 chars.now }
{
    let w = u64::from_le_bytes(*chars) ^ 0x3030303030303030;
    let low = w & 0x7F7F7F7F7F7F7F7F;
    let ranges = (low + 0x7676767676767676)
        ^ (low + 0x0F0F0F0F0F0F0F0F)
        ^ (low + 0x0909090909090909);
    let others = (ranges | w) & 0x8080808080808080;
    (others.trailing_zeros() / 8) as usize
}

// The same for 16 characters, without a branch.
fn words_run(chars: &[u8; 16]) -> usize
    ensures { result ≡ digit_run 16 chars.now }
{
    let (words, _) = chars.as_chunks::<8>();
    let first = word_run(&words[0]);
    first + first / 8 * word_run(&words[1])
}

// How many digits stand at the front of s: those of whole blocks, and then those of the next 16 characters, which are not all digits, or of the rest.
fn front_run(s: &[u8]) -> usize
    requires { length s.now ≤ 515 }
    ensures { result ≡ digit_run 515 s.now }
{
    let at = octets::block_run_len(s, is_digit);
    let rest = &s[at..];
    match rest.first_chunk::<16>() {
        Some(chars) => at + words_run(chars),
        None => at + octets::run_len(rest, is_digit),
    }
}

// How many digits stand at the front of s, up to one more than the most that a frame has.
pub(crate) fn digit_run(s: &[u8]) -> usize
    ensures { result ≡ digit_run 515 s.now }
{
    front_run(&s[..s.len().min(515)])
}
