// Reads segments with the line reader of the crate reader, in chunks of a given size, and prints what each call answers.
//
// Standard input, of which 131,072 bytes are read, has a row to a line, and empty lines are passed over:
// - `# ..`: a heading, printed as it is.
// - `FORMAT SIZE BYTES`: a segment for a new reader, offered in chunks of SIZE bytes, or as a whole where SIZE is 0. FORMAT is `ascii`, in which the
//   ending is CR LF, `any`, ASCII with any ending, `binary`, in which the footer is optional, or `required`, binary with the footer required. BYTES are up to
//   1,024 hex pairs with a space between.
// - `then SIZE BYTES`: a further segment for the reader as the row before left it.
// - `held FORMAT COUNT MARK JUDGED SIZE BYTES`: a state made by hand. The first 517 bytes are its array, in which bytes that the row lacks are 0, and COUNT is
//   its count; MARK is 1 where an optional byte may follow the last frame, else 0; JUDGED is how many of the held bytes it says were judged at the first. The
//   bytes behind the first COUNT are offered. Before that come calls that are refused for their buffer or chunk, or for the state.
// - `quiet FORMAT COUNT MARK JUDGED BYTES`: such a state, and the quiet at once; where bytes stand behind the first COUNT, behind one line call with all of
//   them.
//
// A row is printed with the count of its bytes in their place. Each call then prints a line, in which JUDGED is how many bytes it judged, each counted once at
// every place where it was, without those that the state said were judged, and BEGAN is how many bytes before the first untaken one the frame began, or at a
// quiet before the segment's end:
// - `feed TAKEN NOISE JUDGED frame BEGAN PAYLOAD`, `feed TAKEN NOISE JUDGED more`;
// - `quiet NOISE JUDGED frame BEGAN PAYLOAD`, `quiet NOISE JUDGED empty`;
// - `feed refused NUMBER state kept buffer kept` and the same of `quiet`, behind `short` for a buffer of 255 bytes and `long` for a chunk of
//   65,537;
// - `state MARK JUDGED HELD` behind the line call of a row `quiet`: the mark, how many of the held bytes were judged at the first, and the bytes held, or `-`.
//
// `changed` stands for `kept` where that is not so. The other lines end in `buffer wrong` where more of the buffer was written than the
// payload, and in `state wrong` where the state after `empty` is not a new reader's, in every byte. A row ends with `total FRAMES NOISE JUDGED`.
#![tactic(auto)]

mod calls;
mod show;

use crate::calls::{once_calls, refused_calls, run_calls};
use crate::show::Made;
use console::{
    FormatWord, Unfailing, append, format_named, front, hex_bytes, next_word, number, read_input,
    rest,
};
use frame::{Ending, Footer, Format, Framing};
use reader::Reader;
use std::io;

// Runs the rows of standard input.
fn main(rt: HostRuntime) -> io::Result<()> {
    let rt = Unfailing(&rt);
    let mut text = [0u8; 131072];
    let n = read_input(&mut text);
    let mut reader = Reader::new(Framing::Binary);
    for line in text[..n].split(|b| *b == b'\n') {
        reader = run_row(&rt, line, reader)?;
    }
    Ok(())
}

// Runs one line behind a row that left this reader, and gives the reader that it leaves.
fn run_row(rt: &impl Print, line: &[u8], reader: Reader) -> io::Result<Reader> {
    match line.first() {
        None => Ok(reader),
        Some(b'#') => {
            // The bytes of a line need not be text.
            rt.write_all(line)?;
            rt.println("")?;
            Ok(reader)
        }
        Some(b't') => run_then(rt, line, reader),
        Some(b'h') => run_held(rt, line),
        Some(b'q') => run_once(rt, line),
        _ => run_segment(rt, line),
    }
}

// Runs a row with a new reader.
fn run_segment(rt: &impl Print, line: &[u8]) -> io::Result<Reader> {
    let size_text = next_word(line);
    let format = format_of(line);
    let size = number(size_text);
    let mut bytes = [0u8; 1024];
    let n = hex_bytes(next_word(size_text), &mut bytes);
    println!(rt; "{} {size} {n}", FormatWord(format))?;
    run_calls(rt, new_reader(format), &bytes[..n], size)
}

// Runs a row with the reader that the one before it left.
fn run_then(rt: &impl Print, line: &[u8], reader: Reader) -> io::Result<Reader> {
    let size_text = next_word(line);
    let size = number(size_text);
    let mut bytes = [0u8; 1024];
    let n = hex_bytes(next_word(size_text), &mut bytes);
    println!(rt; "then {size} {n}")?;
    run_calls(rt, reader, &bytes[..n], size)
}

// Runs a row with a state made by hand.
fn run_held(rt: &impl Print, line: &[u8]) -> io::Result<Reader> {
    let words = next_word(line);
    let size_text = behind_state(words);
    let size = number(size_text);
    let mut bytes = [0u8; 1024];
    let n = hex_bytes(next_word(size_text), &mut bytes);
    let reader = state_of(words, &bytes);
    println!(rt; "held {} {size} {n}", Made(&reader))?;
    refused_calls(rt, reader)?;
    run_calls(rt, reader, rest(front(&bytes, n), reader.count), size)
}

// Runs a row with a state made by hand and the quiet at once.
fn run_once(rt: &impl Print, line: &[u8]) -> io::Result<Reader> {
    let words = next_word(line);
    let mut bytes = [0u8; 1024];
    let n = hex_bytes(behind_state(words), &mut bytes);
    let reader = state_of(words, &bytes);
    println!(rt; "quiet {} {n}", Made(&reader))?;
    once_calls(rt, reader, rest(front(&bytes, n), reader.count))
}

// What stands behind the four words of a state: its format, count, mark and number of judged bytes.
fn behind_state(words: &[u8]) -> &[u8] {
    next_word(next_word(next_word(next_word(words))))
}

// The state whose four words stand at the front of these, and whose array is the first of these bytes.
fn state_of(words: &[u8], bytes: &[u8]) -> Reader {
    let count_text = next_word(words);
    let mark_text = next_word(count_text);
    let mut held = [0u8; 517];
    append(&mut held, 0, bytes);
    Reader {
        held,
        follows: number(mark_text) == 1,
        format: format_of(words),
        count: number(count_text),
        judged: number(next_word(mark_text)),
    }
}

// A new reader: where the format is the default of its framing, the one that the framing gives.
fn new_reader(format: Format) -> Reader {
    match format {
        Format::Binary(Footer::Optional) => Reader::new(Framing::Binary),
        Format::Ascii(Ending::CrLf) => Reader::new(Framing::Ascii),
        _ => Reader::open(format),
    }
}

// The format that a row names; where it names none, that of binary framing.
fn format_of(words: &[u8]) -> Format {
    format_named(words).unwrap_or(Format::Binary(Footer::Optional))
}
