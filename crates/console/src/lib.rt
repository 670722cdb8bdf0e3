// Text for the test programs: standard input, output that goes on where a write fails, the words and numbers of a line, the words for formats, bytes as hex
// digits, and parts of slices. No function asks anything of its caller. A bound in a contract follows from the equations beside it, and is there for the
// proofs of callers.
#![tactic(auto)]

mod format;
mod hex;
mod output;
mod part;
mod streams;
mod text;

pub use format::{FormatWord, format_named};
pub use hex::{Hex, HexField, hex_bytes};
pub use output::Unfailing;
pub use part::{append, front, rest};
pub use streams::read_input;
pub use text::{next_word, number};
