// What the program prints of states.
use console::{FormatWord, HexField, front};
use reader::Reader;
use std::fmt;

// Prints as the format, the count, the mark and the number of judged bytes of a state.
#[derive(Clone, Copy)]
pub struct Made<'a>(pub &'a Reader);

impl fmt::Display for Made<'_> {
    fn fmt<W: fmt::Write>(&self, f: &mut fmt::Formatter<W>) -> fmt::Result {
        let Reader {
            format,
            count,
            follows,
            judged,
            ..
        } = *self.0;
        let mark = u8::from(follows);
        write!(f, "{} {count} {mark} {judged}", FormatWord(format))
    }
}

// Prints as the mark, the number of judged bytes and the held bytes of a state, or `-` where it holds none.
#[derive(Clone, Copy)]
pub struct Left<'a>(pub &'a Reader);

impl fmt::Display for Left<'_> {
    fn fmt<W: fmt::Write>(&self, f: &mut fmt::Formatter<W>) -> fmt::Result {
        let reader = self.0;
        let mark = u8::from(reader.follows);
        let held = front(&reader.held, reader.count);
        write!(f, "{mark} {} {}", reader.judged, HexField(held))
    }
}
