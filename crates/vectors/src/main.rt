// Runs frames, payloads and settings lists through the public calls of the crates frame, message and settings and prints what each gives.
//
// Standard input, of which 65,536 bytes are read, has a row to a line, and empty lines are passed over:
// - `# ..`: a heading, printed as it is. The rows under one that ends in `not counted` stay out of the totals.
// - `:..`: an ASCII frame without its CR LF, which is added.
// - `ascii ..`: bytes in ASCII framing, as hex pairs with a space between; `ascii` alone is the empty slice.
// - `any ..`: such bytes, read with any ending; `any` alone is the empty slice. These rows stay out of the totals.
// - `binary ..`, or the pairs alone: bytes in binary framing, read with the footer optional, which is the default, and with it required.
// - `payload ..`: a payload, as hex pairs.
// - `list ..`: a settings list, as hex pairs.
//
// A frame's row prints `frame`, the bytes used, the payload and whether it is written back as the bytes that were read, which one without its
// footer is not, and what the payload means to the module and from it; or `refused` and the number. In binary framing a further line
// has the reading with the footer required: `required frame`, the bytes used and the payload, or `required refused` and the number. A
// row with any ending prints that reading alone, likewise behind `any`. A payload's row prints itself and both meanings. A list's row prints itself, then
// `walk` and its settings, or `refused` and the number.
//
// The last lines have the totals of the frames' rows: those of the default, and those with the footer required, which document 01's list rests on.
// ASCII rows have one reading, which counts in both.
#![tactic(auto)]

mod meaning;
mod shown;

ghost use Rattle.io.specs.Counts.{IsPrefixLen};

use crate::meaning::ReadFrame;
use crate::shown::Walk;
use console::{Hex, Unfailing, append, front, hex_bytes, read_input, rest};
use frame::{Ending, Footer, Format, FrameRead, Framing};
use std::{fmt, io};

// What became of a line.
#[derive(Clone, Copy)]
enum Row {
    // An empty line, a payload, a list or bytes that are read with any ending.
    Uncounted,
    Heading { counted: bool },
    // Whether a frame was read by default, and with the footer required.
    Read { optional: bool, required: bool },
}

// How many rows were read as a frame, and how many were refused.
#[derive(Clone, Copy, Default)]
struct Count {
    frames: u64,
    refused: u64,
}

impl Count {
    // Adds one more reading, of a frame or refused. No text has so many lines that it wraps.
    fn add(&mut self, is_frame: bool) {
        if is_frame {
            self.frames = self.frames.wrapping_add(1);
        } else {
            self.refused = self.refused.wrapping_add(1);
        }
    }
}

impl fmt::Display for Count {
    fn fmt<W: fmt::Write>(&self, f: &mut fmt::Formatter<W>) -> fmt::Result {
        write!(f, "{} frames, {} refused", self.frames, self.refused)
    }
}

// The totals so far by default and with the footer required, and whether the rows that follow count.
#[derive(Drop)]
struct Totals {
    optional: Count,
    required: Count,
    counted: bool,
}

impl Totals {
    // Adds one more line.
    fn add(&mut self, row: Row) {
        match row {
            Row::Heading { counted } => self.counted = counted,
            Row::Read { optional, required } if self.counted => {
                self.optional.add(optional);
                self.required.add(required);
            }
            _ => {}
        }
    }
}

// Runs the rows of standard input, then prints the totals.
fn main(rt: HostRuntime) -> io::Result<()> {
    let rt = Unfailing(&rt);
    let mut text = [0u8; 65536];
    let n = read_input(&mut text);
    let mut totals = Totals {
        optional: Count::default(),
        required: Count::default(),
        counted: true,
    };
    for line in text[..n].split(|b| *b == b'\n') {
        totals.add(run_row(&rt, line)?);
    }
    println!(rt; "{}\nrequired {}", totals.optional, totals.required)
}

// Runs one line.
// Kept: two matches on the line's first byte, since what the second does with the bytes is another thing than how the first finds them.
fn run_row(rt: &impl Print, line: &[u8]) -> io::Result<Row> {
    let Some(first) = line.first() else {
        return Ok(Row::Uncounted);
    };
    let mut bytes = [0u8; 1024];
    let n = match first {
        b'#' => return run_heading(rt, line),
        b':' => text_bytes(line, &mut bytes),
        _ => hex_bytes(rest(line, pairs_from(line)), &mut bytes),
    };
    let bytes = front(&bytes, n);
    match first {
        b'p' => run_payload(rt, line, bytes),
        b'l' => run_list(rt, line, bytes),
        b'a' if line.starts_with(b"any") => run_any(rt, bytes),
        b'a' | b':' => run_ascii(rt, bytes),
        _ => run_binary(rt, bytes),
    }
}

// Prints a line of bytes, which need not be text.
fn print_line(rt: &impl Print, line: &[u8]) -> io::Result<()> {
    rt.write_all(line)?;
    rt.println("")
}

// Prints a heading.
fn run_heading(rt: &impl Print, line: &[u8]) -> io::Result<Row> {
    print_line(rt, line)?;
    Ok(Row::Heading {
        counted: !line.ends_with(b"not counted"),
    })
}

// Puts a line and CR LF into the front of bytes and gives how many bytes that makes. What stands behind a line's first 1,022 bytes is left out.
fn text_bytes(line: &[u8], bytes: &mut [u8]) -> usize
    ensures { IsPrefixLen result bytes.new }
{
    let n = append(bytes, 0, front(line, 1022));
    append(bytes, n, b"\r\n")
}

// Where the hex pairs of a line begin: behind the word `any`, `ascii`, `binary`, `list` or `payload`, or at once.
fn pairs_from(line: &[u8]) -> usize {
    match line.first() {
        Some(b'a') if line.starts_with(b"any") => 4,
        Some(b'a') => 6,
        Some(b'b') => 7,
        Some(b'l') => 5,
        Some(b'p') => 8,
        _ => 0,
    }
}

// Prints the row of a payload and what the payload means. It counts as the payload of an ASCII frame.
fn run_payload(rt: &impl Print, line: &[u8], payload: &[u8]) -> io::Result<Row> {
    print_line(rt, line)?;
    let mut whole = [0u8; 517];
    let len = frame::write_frame(Framing::Ascii, payload, &mut whole).unwrap_or(0);
    let read = ReadFrame {
        framing: Framing::Ascii,
        payload,
        whole: front(&whole, len),
    };
    read.print_meanings(rt)?;
    Ok(Row::Uncounted)
}

// Prints the row of a settings list and its settings.
fn run_list(rt: &impl Print, line: &[u8], list: &[u8]) -> io::Result<Row> {
    print_line(rt, line)?;
    println!(rt; "  walk{}", Walk(list))?;
    Ok(Row::Uncounted)
}

// Runs bytes in ASCII framing.
fn run_ascii(rt: &impl Print, s: &[u8]) -> io::Result<Row> {
    let is_frame = run_frame(rt, Framing::Ascii, s)?;
    Ok(Row::Read {
        optional: is_frame,
        required: is_frame,
    })
}

// Runs bytes in binary framing, by default and with the footer required.
fn run_binary(rt: &impl Print, s: &[u8]) -> io::Result<Row> {
    let optional = run_frame(rt, Framing::Binary, s)?;
    let required = run_as(rt, Format::Binary(Footer::Required), "  required", s)?;
    Ok(Row::Read { optional, required })
}

// Runs bytes in ASCII framing with any ending.
fn run_any(rt: &impl Print, s: &[u8]) -> io::Result<Row> {
    run_as(rt, Format::Ascii(Ending::Any), "any", s)?;
    Ok(Row::Uncounted)
}

// Reads a frame from the front of s in a format and prints what that gave, behind the format's name; answers whether it is one.
fn run_as(rt: &impl Print, format: Format, name: &str, s: &[u8]) -> io::Result<bool> {
    let mut buf = [0u8; 256];
    match frame::read_frame_as(format, s, &mut buf) {
        Ok(FrameRead { used, len }) => {
            println!(rt; "{name} frame {used} {}", Hex(front(&buf, len)))?;
            Ok(true)
        }
        Err(refusal) => {
            println!(rt; "{name} refused {}", refusal.number())?;
            Ok(false)
        }
    }
}

// Reads a frame from the front of s, writes its payload again and prints what both gave; answers whether it is one.
fn run_frame(rt: &impl Print, framing: Framing, s: &[u8]) -> io::Result<bool> {
    let mut buf = [0u8; 256];
    match frame::read_frame(framing, s, &mut buf) {
        Ok(FrameRead { used, len }) => {
            let read = ReadFrame {
                framing,
                payload: front(&buf, len),
                whole: front(s, used),
            };
            let ending = if read.is_written() {
                "written back"
            } else {
                "differs"
            };
            println!(rt; "frame {used} {} {ending}", Hex(read.payload))?;
            read.print_meanings(rt)?;
            Ok(true)
        }
        Err(refusal) => {
            println!(rt; "refused {}", refusal.number())?;
            Ok(false)
        }
    }
}
