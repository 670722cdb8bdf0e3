// The words for the formats: `binary`, in which the footer is optional, `required`, binary with the footer required, `ascii`, in which the ending is CR LF, and
// `any`, ASCII with any ending.
ghost use Rattle.std.specs.Prelude.{◌≡◌};
ghost use Rattle.console.specs.Format.{format_named};

use frame::{Ending, Footer, Format};
use std::fmt;

// Prints as the word of a format.
#[derive(Clone, Copy)]
pub struct FormatWord(pub Format);

impl fmt::Display for FormatWord {
    fn fmt<W: fmt::Write>(&self, f: &mut fmt::Formatter<W>) -> fmt::Result {
        f.write_str(match self.0 {
            Format::Binary(Footer::Optional) => "binary",
            Format::Binary(Footer::Required) => "required",
            Format::Ascii(Ending::CrLf) => "ascii",
            Format::Ascii(Ending::Any) => "any",
        })
    }
}

// The format that a word names by its second letter, in which the words differ.
pub fn format_named(word: &[u8]) -> Option<Format>
    ensures { result ≡ format_named word.now }
{
    match word.get(1)? {
        b'i' => Some(Format::Binary(Footer::Optional)),
        b'e' => Some(Format::Binary(Footer::Required)),
        b's' => Some(Format::Ascii(Ending::CrLf)),
        b'n' => Some(Format::Ascii(Ending::Any)),
        _ => None,
    }
}
