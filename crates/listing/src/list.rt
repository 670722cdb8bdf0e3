// What is listed of a line: chunk by chunk, at a quiet, and at the end.
ghost use Rattle.std.specs.Prelude.{◌≡◌, length, Ok};
ghost use Rattle.reader.specs.Reader.{Feeds};
ghost use Rattle.reader.specs.View.{Stands};
ghost use Rattle.listing.specs.Line.{line_of};
ghost use Rattle.listing.specs.Parts.{CanAdd, Adds, CanView, ListsView, CanFeed, ListsAll, CanQuiet, ListsHeld, fed_of, listed_of, Follows};
ghost use Rattle.listing.specs.declared.list.Listed.{Listed};
ghost use Rattle.listing.specs.Listing.{ListsChunk, ListsQuiet, ListsTotal};

use crate::text::{Lines, Listing};
use frame::Refusal;
use reader::{FeedAnswer, QuietAnswer, Reader, View};

// The room that the text of any chunk, of any quiet, and of any total fits in, whatever the reader's format.
pub const CHUNK_ROOM: usize = 198159;

pub const QUIET_ROOM: usize = 1551;

pub const TOTAL_ROOM: usize = 27;

// An answer, and the reader's state that follows.
#[derive(Clone, Copy)]
pub struct Listed {
    pub reader: Reader,
    pub answer: Result<Lines, Refusal>,
}

impl Listing<'_> {
    // Lists a frame with this payload, and counts its call.
    fn frame(&mut self, payload: &[u8], noise: usize, judged: usize)
        requires { CanAdd self.old (line_of payload.now) noise judged }
        ensures { Adds self.old (line_of payload.now) noise judged self.new }
    {
        self.put_line(payload);
        self.count(noise, judged);
    }
}

// Lists the frames of a chunk from the view on, and gives the view that follows. No state is copied between frames, and the caller lends its buffer, so that
// one is cleared for a chunk and not two.
fn list_view(
    mut view: View,
    chunk: &[u8],
    buf: &mut [u8],
    listing: &mut Listing,
) -> Result<View, Refusal>
    requires can { CanView view chunk.now listing.old }
    requires full { length buf.old ≡ 256 }
    ensures { ListsView view chunk.now listing.old result listing.new }
{
    loop {
        let fed = view.feed(chunk, buf);
        view = fed.view;
        match fed.answer? {
            FeedAnswer::Frame {
                noise,
                judged,
                len,
                ..
            } => listing.frame(&buf[..len], noise, judged),
            FeedAnswer::NeedsMore { noise, judged, .. } => {
                listing.count(noise, judged);
                return Ok(view);
            }
        }
    }
}

// Makes one call of the reader, and leaves the reader that follows. In the loop itself the answer's state would be cleared once for each chunk, even where no
// call is made.
fn feed(reader: &mut Reader, chunk: &[u8], buf: &mut [u8]) -> Result<FeedAnswer, Refusal>
    ensures { Feeds reader.old chunk.now buf.old (fed_of reader.new result) buf.new }
{
    let fed = reader.feed(chunk, buf);
    *reader = fed.reader;
    fed.answer
}

// Feeds the chunk to the reader to its end, and lists the frames. Once the reader holds nothing, a view goes on, and is given: what is left is in it then, and
// no longer in the reader.
fn list_all(
    reader: &mut Reader,
    chunk: &[u8],
    listing: &mut Listing,
) -> Result<Option<View>, Refusal>
    requires { CanFeed reader.old chunk.now listing.old }
    ensures { ListsAll reader.old chunk.now listing.old result reader.new listing.new }
{
    let mut buf = [0u8; Reader::MAX_PAYLOAD];
    let mut done: usize = 0;
    while 0 < reader.count {
        match feed(reader, &chunk[done..], &mut buf)? {
            FeedAnswer::Frame {
                taken,
                noise,
                judged,
                len,
                ..
            } => {
                listing.frame(&buf[..len], noise, judged);
                done += taken;
            }
            FeedAnswer::NeedsMore { noise, judged, .. } => {
                listing.count(noise, judged);
                return Ok(None);
            }
        }
    }
    let view = View {
        format: reader.format,
        from: done,
        end: done,
        follows: reader.follows,
        judged: 0,
    };
    Ok(Some(list_view(view, chunk, &mut buf, listing)?))
}

// Lists the frames that a quiet finds in the held bytes, and leaves the reader that follows.
fn list_held(reader: &mut Reader, listing: &mut Listing) -> Result<(), Refusal>
    requires { CanQuiet reader.old listing.old }
    ensures { ListsHeld reader.old listing.old result reader.new listing.new }
{
    let mut buf = [0u8; Reader::MAX_PAYLOAD];
    loop {
        let quieted = reader.quiet(&mut buf);
        *reader = quieted.reader;
        match quieted.answer? {
            QuietAnswer::Frame {
                noise,
                judged,
                len,
                ..
            } => listing.frame(&buf[..len], noise, judged),
            QuietAnswer::Empty { noise, judged } => {
                listing.count(noise, judged);
                return Ok(());
            }
        }
    }
}

impl Listed {
    // The lines of a chunk, and the reader that holds what a view holds of it. It is made in the answer's place, which saves a copy of its state.
    fn by_view(view: View, chunk: &[u8], lines: Lines) -> Self
        ensures reader { Stands view chunk.now result.reader }
        ensures answer { result.answer ≡ Ok lines }
    {
        Listed {
            reader: view.reader(chunk),
            answer: Ok(lines),
        }
    }
}

// Lists a chunk: the view that holds what is left, if it isn't the reader that does, and the lines. A refusal leaves the reader.
// Kept: a twin of `quiet_lines`. One function would take the listing as a closure, and its contract speak of that closure where these say `ListsChunk` and
// `ListsQuiet`.
fn chunk_lines(
    reader: &mut Reader,
    chunk: &[u8],
    out: &mut [u8],
) -> Result<(Option<View>, Lines), Refusal>
    requires { length reader.old.held ≡ 517 }
    ensures { (listed : Listed) → Follows reader.new chunk.now result listed → ListsChunk reader.old chunk.now out.old listed out.new }
{
    reader.admits(CHUNK_ROOM, out.len(), chunk.len())?;
    let mut listing = Listing::new(out);
    let left = list_all(reader, chunk, &mut listing)?;
    Ok((left, listing.lines()))
}

// Feeds a chunk to the reader to its end, and puts a line for each frame into the front of out, whose other bytes stay. Refused with 16 as `feed` is, 13
// where out has under CHUNK_ROOM bytes, 15 as `feed` is; a refusal leaves state and buffer.
pub fn list_chunk(mut reader: Reader, chunk: &[u8], out: &mut [u8]) -> Listed
    ensures { ListsChunk reader chunk.now out.old result out.new }
{
    let answer = match chunk_lines(&mut reader, chunk, out) {
        Ok((Some(view), lines)) => return Listed::by_view(view, chunk, lines),
        Ok((None, lines)) => Ok(lines),
        Err(refusal) => Err(refusal),
    };
    Listed { reader, answer }
}

// Lists a quiet: the same.
fn quiet_lines(reader: &mut Reader, out: &mut [u8]) -> Result<Lines, Refusal>
    ensures { ListsQuiet reader.old out.old (listed_of reader.new result) out.new }
{
    reader.admits(QUIET_ROOM, out.len(), 0)?;
    let mut listing = Listing::new(out);
    list_held(reader, &mut listing)?;
    Ok(listing.lines())
}

// The line was quiet: puts a line for each frame that the reader still holds into the front of out, whose other bytes stay. Refused with 16 as `quiet` is,
// 13 where out has under QUIET_ROOM bytes; a refusal leaves state and buffer.
pub fn list_quiet(mut reader: Reader, out: &mut [u8]) -> Listed
    ensures { ListsQuiet reader out.old result out.new }
{
    let answer = quiet_lines(&mut reader, out);
    Listed { reader, answer }
}

// Puts the line of the total of noise into the front of out, whose other bytes stay, and gives its length. Refused with 13 where out has under TOTAL_ROOM
// bytes; a refusal leaves all of out.
pub fn list_total(noise: u64, out: &mut [u8]) -> Result<usize, Refusal>
    ensures { ListsTotal noise out.old result out.new }
{
    if out.len() < TOTAL_ROOM {
        return Err(Refusal::Buffer);
    }
    let mut listing = Listing::new(out);
    listing.put(b"noise ");
    listing.put_decimal(noise);
    listing.put(b"\n");
    Ok(listing.lines().len)
}
