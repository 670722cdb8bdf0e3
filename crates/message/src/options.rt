// The option string of an extended message to the module.
ghost use Rattle.std.specs.Prelude.{◌≡◌, ◌+◌, ◌≤◌, ◌++◌, length, drop};
ghost use Rattle.message.specs.Options.{no_options, has_option, give_flag, give_retries, word_or, give_word, is_retry};
ghost use Rattle.message.specs.Options.{option, options_from, retry_allowed, flag_bytes, retry_bytes, word_bytes, option_bytes};
ghost use Rattle.message.specs.Parts.{options_read};

use crate::number::word;
use crate::write::PayloadWriter;

// Which options are given, and their arguments.
#[derive(Clone, Copy, Default)]
pub struct Options {
    // 01: enables MAC acknowledgement.
    pub mac_ack: bool,
    // 02: retries by the application, as the retry byte 00 to 0F or 81 to 8F.
    pub retries: Option<u8>,
    // 03: the minimum delay before the first transmission, in ms.
    pub lower_delay: Option<u16>,
    // 04: the maximum delay before the first transmission, in ms.
    pub upper_delay: Option<u16>,
    // 05: the interval between retries, in ms.
    pub interval: Option<u16>,
    // 06: allows parallel requests.
    pub parallel: bool,
    // 07: disables the response message.
    pub no_response: bool,
    // 08: sleep after the transmission.
    pub sleep: bool,
}

impl Options {
    // No option given.
    pub fn none() -> Self
        ensures { result ≡ no_options }
    {
        Options::default()
    }
}

// Whether the option is given already.
// Kept: an option is known here by its number in the string; an enum of the eight would only be made to be matched once more.
#[tactic(auto, unfolding(crate::specs::Options::has_option))]
fn has(options: Options, id: u8) -> bool
    ensures { result ≡ has_option options id }
{
    match id {
        0x01 => options.mac_ack,
        0x02 => options.retries.is_some(),
        0x03 => options.lower_delay.is_some(),
        0x04 => options.upper_delay.is_some(),
        0x05 => options.interval.is_some(),
        0x06 => options.parallel,
        0x07 => options.no_response,
        0x08 => options.sleep,
        _ => false,
    }
}

// The options with one more that has no argument.
#[tactic(auto, unfolding(crate::specs::Options::give_flag))]
fn give_flag(options: Options, id: u8) -> Options
    ensures { result ≡ give_flag options id }
{
    Options {
        mac_ack: id == 0x01 || options.mac_ack,
        parallel: id == 0x06 || options.parallel,
        no_response: id == 0x07 || options.no_response,
        sleep: id == 0x08 || options.sleep,
        ..options
    }
}

// The options with the retries given.
fn give_retries(options: Options, b: u8) -> Options
    ensures { result ≡ give_retries options b }
{
    Options {
        retries: Some(b),
        ..options
    }
}

// One argument of two bytes, given or as it was.
#[tactic(auto, unfolding(crate::specs::Options::word_or))]
fn word_or(id: u8, given: u8, v: u16, was: Option<u16>) -> Option<u16>
    ensures { result ≡ word_or id given v was }
{
    if id == given { Some(v) } else { was }
}

// The options with one more that has two bytes.
fn give_word(options: Options, id: u8, v: u16) -> Options
    ensures { result ≡ give_word options id v }
{
    Options {
        lower_delay: word_or(0x03, id, v, options.lower_delay),
        upper_delay: word_or(0x04, id, v, options.upper_delay),
        interval: word_or(0x05, id, v, options.interval),
        ..options
    }
}

// Whether a retry byte is one of 00 to 0F and 81 to 8F.
#[tactic(auto, unfolding(crate::specs::Options::is_retry))]
pub(crate) fn is_retry(b: u8) -> bool
    ensures { result ≡ is_retry b }
{
    matches!(b, 0x00..=0x0F | 0x81..=0x8F)
}

// Reads the rest of an option string, from `at` on, where `options` are given already: an option, its argument, then the rest, until FF. Gives all options
// and the index behind FF; none where it is no option string.
// Kept: by recursion, which carries the options so far; a loop would carry the same two values and stop at the same places.
#[tactic(auto, using(crate::proofs::OptionLaws::nothing_left, crate::proofs::OptionLaws::one_left, crate::proofs::OptionLaws::drop_one), unfolding(crate::specs::Options::options_from, crate::specs::Options::expected_after, crate::specs::Options::given_after, crate::specs::Options::is_option))]
pub(crate) fn read_options(s: &[u8], at: usize, options: Options) -> Option<(Options, usize)>
    requires { at ≤ length s.now }
    ensures { options_read result ≡ options_from option options at (drop at s.now) }
{
    let id = *s.get(at)?;
    if id == 0xFF {
        return Some((options, at + 1));
    }
    if has(options, id) {
        return None;
    }
    match id {
        0x01 | 0x06 | 0x07 | 0x08 => read_options(s, at + 1, give_flag(options, id)),
        0x02 => {
            let b = *s.get(at + 1)?;
            if !is_retry(b) {
                return None;
            }
            read_options(s, at + 2, give_retries(options, b))
        }
        0x03 | 0x04 | 0x05 => {
            if s.len() <= at + 2 {
                return None;
            }
            read_options(s, at + 3, give_word(options, id, word(s, at + 1)))
        }
        _ => None,
    }
}

// Whether the retry byte, where it is given, is one of those allowed.
pub(crate) fn retry_allowed(retries: Option<u8>) -> bool
    ensures { result ≡ retry_allowed retries }
{
    match retries {
        None => true,
        Some(b) => is_retry(b),
    }
}

// Puts an option without an argument behind a payload, where it is given.
fn put_flag(payload: &mut PayloadWriter, id: u8, given: bool)
    requires { length payload.old + 1 ≤ 256 }
    ensures bytes { payload.new ≡ payload.old ++ flag_bytes id given }
    ensures len { length payload.new ≤ length payload.old + 1 }
{
    if given {
        payload.put(&[id]);
    }
}

// Puts the retries behind a payload, where they are given.
fn put_retries(payload: &mut PayloadWriter, retries: Option<u8>)
    requires { length payload.old + 2 ≤ 256 }
    ensures bytes { payload.new ≡ payload.old ++ retry_bytes retries }
    ensures len { length payload.new ≤ length payload.old + 2 }
{
    if let Some(b) = retries {
        payload.put(&[0x02, b]);
    }
}

// Puts an option of two bytes behind a payload, where it is given.
fn put_word(payload: &mut PayloadWriter, id: u8, argument: Option<u16>)
    requires { length payload.old + 3 ≤ 256 }
    ensures bytes { payload.new ≡ payload.old ++ word_bytes id argument }
    ensures len { length payload.new ≤ length payload.old + 3 }
{
    if let Some(v) = argument {
        payload.put(&[id]);
        payload.put_word(v);
    }
}

// Puts the option string behind a payload, in ascending order with FF at its end.
pub(crate) fn put_options(payload: &mut PayloadWriter, options: Options)
    requires { length payload.old + 16 ≤ 256 }
    ensures { payload.new ≡ payload.old ++ option_bytes options }
{
    put_flag(payload, 0x01, options.mac_ack);
    put_retries(payload, options.retries);
    put_word(payload, 0x03, options.lower_delay);
    put_word(payload, 0x04, options.upper_delay);
    put_word(payload, 0x05, options.interval);
    put_flag(payload, 0x06, options.parallel);
    put_flag(payload, 0x07, options.no_response);
    put_flag(payload, 0x08, options.sleep);
    payload.put(&[0xFF]);
}
