// The options of an extended message as numbers.
ghost use Rattle.std.specs.Prelude.{◌≡◌};
ghost use Rattle.boundary.specs.Options.{option_numbers, options_in};

use message::Options;

// For each option whether it is given, and its argument, which is 0 where it is not.
// Kept: flags with their arguments beside them, since this is the C interface.
#[repr(C)]
#[derive(Clone, Copy, Default)]
pub struct OptionNumbers {
    pub mac_ack: bool,
    pub has_retries: bool,
    pub retries: u8,
    pub has_lower_delay: bool,
    pub lower_delay: u16,
    pub has_upper_delay: bool,
    pub upper_delay: u16,
    pub has_interval: bool,
    pub interval: u16,
    pub parallel: bool,
    pub no_response: bool,
    pub sleep: bool,
}

impl From<Options> for OptionNumbers {
    ghost from_gives = { λ options numbers. numbers ≡ option_numbers options };

    fn from(options: Options) -> OptionNumbers {
        OptionNumbers {
            mac_ack: options.mac_ack,
            has_retries: options.retries.is_some(),
            retries: options.retries.unwrap_or(0),
            has_lower_delay: options.lower_delay.is_some(),
            lower_delay: options.lower_delay.unwrap_or(0),
            has_upper_delay: options.upper_delay.is_some(),
            upper_delay: options.upper_delay.unwrap_or(0),
            has_interval: options.interval.is_some(),
            interval: options.interval.unwrap_or(0),
            parallel: options.parallel,
            no_response: options.no_response,
            sleep: options.sleep,
        }
    }
}

// The options that the numbers stand for. The argument of an option that is not given is not looked at.
impl From<OptionNumbers> for Options {
    ghost from_gives = { λ numbers options. options ≡ options_in numbers };

    fn from(n: OptionNumbers) -> Options {
        Options {
            mac_ack: n.mac_ack,
            retries: n.has_retries.then_some(n.retries),
            lower_delay: n.has_lower_delay.then_some(n.lower_delay),
            upper_delay: n.has_upper_delay.then_some(n.upper_delay),
            interval: n.has_interval.then_some(n.interval),
            parallel: n.parallel,
            no_response: n.no_response,
            sleep: n.sleep,
        }
    }
}
