// Framings and formats as numbers. Writing takes a framing: 0 is binary, 1 is ASCII. Reading takes a format: 0 and 1 are the defaults of these framings, 2 is
// binary with the footer required, 3 is ASCII with any ending.
ghost use Rattle.std.specs.Prelude.{◌≡◌};
ghost use Rattle.boundary.specs.Framing.{framing_of, format_of, format_number};

use frame::{Ending, Footer, Format, Framing};

// The framing that a number stands for, if any.
// Kept: functions, since a crate implements no conversion between two types that are both of other crates.
pub(crate) fn framing_of(number: u8) -> Option<Framing>
    ensures { result ≡ framing_of number }
{
    match number {
        0 => Some(Framing::Binary),
        1 => Some(Framing::Ascii),
        2.. => None,
    }
}

// The format that a number stands for, if any.
pub(crate) fn format_of(number: u8) -> Option<Format>
    ensures { result ≡ format_of number }
{
    match number {
        0 => Some(Format::Binary(Footer::Optional)),
        1 => Some(Format::Ascii(Ending::CrLf)),
        2 => Some(Format::Binary(Footer::Required)),
        3 => Some(Format::Ascii(Ending::Any)),
        _ => None,
    }
}

// The number that stands for a format.
// Kept: a number, since this is the C interface.
pub(crate) fn format_number(format: Format) -> u8
    ensures { result ≡ format_number format }
{
    match format {
        Format::Binary(Footer::Optional) => 0,
        Format::Ascii(Ending::CrLf) => 1,
        Format::Binary(Footer::Required) => 2,
        Format::Ascii(Ending::Any) => 3,
    }
}
