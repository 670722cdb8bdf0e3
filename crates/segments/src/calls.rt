// The calls of a row and their answers, a line for each.
ghost use Rattle.std.specs.Prelude.{◌≤◌, length, IfOk, IfSome};

use crate::show::Left;
use console::{Hex, front, rest};
use frame::Refusal;
use reader::{FeedAnswer, QuietAnswer, Reader};
use std::io;

// Every byte of a buffer before a call.
const UNTOUCHED: u8 = 0xEE;

// A row being run: the reader's state, and the frames, the bytes of noise and the bytes judged so far.
#[derive(Drop)]
struct Run {
    reader: Reader,
    frames: u64,
    noise: u64,
    judged: u64,
}

impl Run {
    // The run of a row that begins with this state.
    fn new(reader: Reader) -> Run {
        Run {
            reader,
            frames: 0,
            noise: 0,
            judged: 0,
        }
    }

    // Adds what an answer gave. No row comes near to sums that wrap.
    fn add(&mut self, frames: u64, noise: usize, judged: usize) {
        self.frames = self.frames.wrapping_add(frames);
        self.noise = self.noise.wrapping_add(noise as u64);
        self.judged = self.judged.wrapping_add(judged as u64);
    }

    // Offers a chunk once and prints the answer. Gives how many bytes were taken with a frame, behind which the call is to be made again. Where more bytes are
    // needed, only the buffer's front is looked at, since such calls are many.
    fn feed(&mut self, rt: &impl Print, chunk: &[u8], buf: &mut [u8]) -> io::Result<Option<usize>>
        ensures { IfOk result (λ again. IfSome again (λ taken. taken ≤ length chunk.now)) }
    {
        let before = self.reader;
        let fed = before.feed(chunk, buf);
        self.reader = fed.reader;
        match fed.answer {
            Ok(
                FeedAnswer::Frame {
                    taken,
                    noise,
                    judged,
                    len,
                    began,
                },
            ) => {
                self.add(1, noise, judged);
                print!(rt; "feed {taken} {noise} {judged}")?;
                print_frame(rt, began, buf, len)?;
                Ok(Some(taken))
            }
            Ok(
                FeedAnswer::NeedsMore {
                    taken,
                    noise,
                    judged,
                },
            ) => {
                self.add(0, noise, judged);
                let buffer = buffer_end(front(buf, 16));
                println!(rt; "feed {taken} {noise} {judged} more{buffer}")?;
                Ok(None)
            }
            Err(refusal) => {
                print_refusal(rt, "feed", refusal, before == self.reader, buf)?;
                Ok(None)
            }
        }
    }

    // Makes a quiet call and prints the answer. Gives whether it was a frame, behind which the call is to be made again.
    fn quiet(&mut self, rt: &impl Print, buf: &mut [u8]) -> io::Result<bool> {
        let before = self.reader;
        let quieted = before.quiet(buf);
        self.reader = quieted.reader;
        match quieted.answer {
            Ok(
                QuietAnswer::Frame {
                    noise,
                    judged,
                    len,
                    began,
                },
            ) => {
                self.add(1, noise, judged);
                print!(rt; "quiet {noise} {judged}")?;
                print_frame(rt, began, buf, len)?;
                Ok(true)
            }
            Ok(QuietAnswer::Empty { noise, judged }) => {
                self.add(0, noise, judged);
                let is_new = self.reader == Reader::open(before.format);
                let state = if is_new { "" } else { " state wrong" };
                let buffer = buffer_end(buf);
                println!(rt; "quiet {noise} {judged} empty{state}{buffer}")?;
                Ok(false)
            }
            Err(refusal) => {
                print_refusal(rt, "quiet", refusal, before == self.reader, buf)?;
                Ok(false)
            }
        }
    }

    // Offers a chunk, and what is left of it again, until more bytes are needed. At most 1,000 calls are made, and a line says so where they were
    // not enough: each but the last gives a frame, and a row of 1,024 bytes has no more than 170.
    fn feed_chunk(&mut self, rt: &impl Print, chunk: &[u8]) -> io::Result<()> {
        let mut left = chunk;
        for _ in 0..1000 {
            let mut buf = [UNTOUCHED; 256];
            let Some(taken) = self.feed(rt, left, &mut buf)? else {
                return Ok(());
            };
            left = rest(left, taken);
        }
        rt.println("too many calls")
    }

    // Offers a segment in chunks of `size` bytes, or as a whole where that is 0. An empty segment is one empty chunk.
    fn feed_all(&mut self, rt: &impl Print, segment: &[u8], size: usize) -> io::Result<()> {
        if size == 0 || segment.is_empty() {
            return self.feed_chunk(rt, segment);
        }
        for chunk in segment.chunks(size) {
            self.feed_chunk(rt, chunk)?;
        }
        Ok(())
    }

    // Makes quiet calls until the reader is empty, at most 1,000, as `feed_chunk` does.
    fn quiet_all(&mut self, rt: &impl Print) -> io::Result<()> {
        for _ in 0..1000 {
            let mut buf = [UNTOUCHED; 256];
            if !self.quiet(rt, &mut buf)? {
                return Ok(());
            }
        }
        rt.println("too many calls")
    }

    // Makes quiet calls, prints the totals and gives the state that is left.
    fn finish(mut self, rt: &impl Print) -> io::Result<Reader> {
        self.quiet_all(rt)?;
        println!(rt; "total {} {} {}", self.frames, self.noise, self.judged)?;
        Ok(self.reader)
    }
}

// Makes calls that are refused: by 16 where the state holds too much, or says that more bytes were judged than it holds, else by 13 for a buffer of 255 bytes
// and 15 for a chunk of 65,537.
pub fn refused_calls(rt: &impl Print, reader: Reader) -> io::Result<()> {
    let mut run = Run::new(reader);
    let long = [0u8; 65537];
    let mut short = [UNTOUCHED; 255];
    let mut full = [UNTOUCHED; 256];
    print!(rt; "short ")?;
    run.feed(rt, &long[..1], &mut short)?;
    print!(rt; "short ")?;
    run.quiet(rt, &mut short)?;
    print!(rt; "long ")?;
    run.feed(rt, &long, &mut full)?;
    print!(rt; "short long ")?;
    run.feed(rt, &long, &mut short)?;
    Ok(())
}

// Offers a segment in chunks, then makes quiet calls, prints the totals and gives the state that is left.
pub fn run_calls(
    rt: &impl Print,
    reader: Reader,
    segment: &[u8],
    size: usize,
) -> io::Result<Reader> {
    let mut run = Run::new(reader);
    run.feed_all(rt, segment, size)?;
    run.finish(rt)
}

// The same, where bytes are offered in one line call, if there are any.
pub fn once_calls(rt: &impl Print, reader: Reader, chunk: &[u8]) -> io::Result<Reader> {
    let mut run = Run::new(reader);
    if !chunk.is_empty() {
        let mut buf = [UNTOUCHED; 256];
        run.feed(rt, chunk, &mut buf)?;
        println!(rt; "state {}", Left(&run.reader))?;
    }
    run.finish(rt)
}

// Prints `frame`, how many bytes before the first untaken one or the segment's end it began, and the payload, which is in the front of a buffer of 256 bytes.
fn print_frame(rt: &impl Print, began: usize, buf: &[u8], len: usize) -> io::Result<()> {
    let payload = Hex(front(buf, len));
    let buffer = buffer_end(rest(buf, len));
    println!(rt; " frame {began} {payload}{buffer}")
}

// Prints the call's name, `refused`, the refusal's number, and whether state and buffer are as before.
fn print_refusal(
    rt: &impl Print,
    call: &str,
    refusal: Refusal,
    is_kept: bool,
    buf: &[u8],
) -> io::Result<()> {
    let number = refusal.number();
    let state = kept_word(is_kept);
    let buffer = kept_word(is_untouched(buf));
    println!(rt; "{call} refused {number} state {state} buffer {buffer}")
}

// The end of a line: what is wrong, if anything is, with the part of a buffer that no byte belongs in.
fn buffer_end(part: &[u8]) -> &'static str {
    if is_untouched(part) {
        ""
    } else {
        " buffer wrong"
    }
}

// `kept` or `changed`.
fn kept_word(is_kept: bool) -> &'static str {
    if is_kept { "kept" } else { "changed" }
}

// Whether no byte of a buffer, or of its part, was written.
fn is_untouched(buf: &[u8]) -> bool {
    buf.iter().all(|b| *b == UNTOUCHED)
}
