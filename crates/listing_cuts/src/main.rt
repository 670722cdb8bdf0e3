// Lists segments that stand in memory, whole and in every cut, through the functions that booth-list is made of.
#![tactic(auto)]

use console::{append, front, hex_bytes, rest};
use frame::Framing;
use listing::{CHUNK_ROOM, Listed, list_chunk, list_quiet, list_total};
use reader::Reader;

// The number of standard output.
const STDOUT_FILENO: i32 = 1;

// A listing so far: the reader's state, the noise, and the text, which is the first `end` bytes of a lent buffer.
#[derive(Drop)]
struct Run<'a> {
    reader: Reader,
    noise: u64,
    text: &'a mut [u8],
    end: usize,
}

impl Run<'_> {
    fn add_text(&mut self, s: &[u8]) {
        let text = &mut *self.text;
        self.end = append(text, self.end, s);
    }

    // Adds an answer, whose text is in the front of out. None of the calls here is refused; one that is adds no text, which shows in the output.
    fn add(&mut self, listed: Listed, out: &[u8]) {
        if let Ok(lines) = listed.answer {
            self.add_text(front(out, lines.len));
            self.reader = listed.reader;
            self.noise = self.noise.wrapping_add(lines.noise as u64);
        }
    }

    // Adds the listing of a chunk.
    fn add_chunk(&mut self, chunk: &[u8], out: &mut [u8]) {
        let listed = list_chunk(self.reader, chunk, out);
        self.add(listed, out);
    }

    // Adds the listing of the quiet and the total, and gives the text's end.
    fn finish(mut self, out: &mut [u8]) -> usize {
        let listed = list_quiet(self.reader, out);
        self.add(listed, out);
        if let Ok(len) = list_total(self.noise, out) {
            self.add_text(front(out, len));
        }
        self.end
    }
}

// Lists a segment in two chunks, of which the first has `cut` bytes, and gives the text's end. In binary framing the footer is optional.
fn list_cut(framing: Framing, segment: &[u8], cut: usize, text: &mut [u8]) -> usize {
    let mut out = [0u8; CHUNK_ROOM];
    let mut run = Run {
        reader: Reader::new(framing),
        noise: 0,
        text,
        end: 0,
    };
    run.add_chunk(front(segment, cut), &mut out);
    run.add_chunk(rest(segment, cut), &mut out);
    run.finish(&mut out)
}

// How many cuts of a segment, the empty ones too, give this text.
fn count_cuts(framing: Framing, segment: &[u8], expected: &[u8]) -> u64 {
    let cuts = (0..=segment.len()).filter(|cut| {
        let mut text = [0u8; 1024];
        let end = list_cut(framing, segment, *cut, &mut text);
        front(&text, end) == expected
    });
    cuts.count() as u64
}

// Prints a segment's name, its listing as one chunk, and how many of its cuts give the same.
// Kept: for println its handle of the runtime would pass through all nine functions that show something, and each of their thirty calls would end in `?`.
fn show_in(framing: Framing, name: &[u8], segment: &[u8]) {
    let mut text = [0u8; 1024];
    let end = list_cut(framing, segment, 0, &mut text);
    let listing = front(&text, end);
    io::write_all(STDOUT_FILENO, name);
    io::write_all(STDOUT_FILENO, b", ");
    io::print_decimal(STDOUT_FILENO, segment.len() as u64);
    io::write_all(STDOUT_FILENO, b" bytes\n");
    io::write_all(STDOUT_FILENO, listing);
    io::write_all(STDOUT_FILENO, b"cuts ");
    io::print_decimal(STDOUT_FILENO, count_cuts(framing, segment, listing));
    io::write_all(STDOUT_FILENO, b"\n");
}

// Shows a segment in ASCII framing.
fn show(name: &[u8], segment: &[u8]) {
    show_in(Framing::Ascii, name, segment);
}

// Shows a segment in binary framing, given as hex pairs with a space between.
fn show_binary(name: &[u8], pairs: &[u8]) {
    let mut segment = [0u8; 64];
    let n = hex_bytes(pairs, &mut segment);
    show_in(Framing::Binary, name, &segment[..n]);
}

// Shows a frame with a payload of 256 bytes that begins with `head`, and goes on with each byte's own index.
fn show_longest(name: &[u8], head: &[u8]) {
    let mut payload = [0u8; 256];
    for (i, b) in payload.iter_mut().enumerate() {
        *b = i as u8;
    }
    append(&mut payload, 0, head);
    let mut frame = [0u8; 517];
    if let Ok(len) = frame::write_frame(Framing::Ascii, &payload, &mut frame) {
        show(name, front(&frame, len));
    }
}

// Shows a frame with one byte more than a payload can have, and a good one behind it.
fn show_too_long() {
    let mut segment = [b'0'; 532];
    segment[0] = b':';
    append(&mut segment, 517, b"\r\n:DBA1120171\r\n");
    show(b"one byte too long", &segment);
}

// Every kind of line, and every refusal that is printed.
fn show_kinds() {
    show(b"empty input", b"");
    show(b"no frame at all", b"no frame\r\n");
    show(b"the example", b"ab:00010203FA\r\n:DBA1120171\r\n");
    show(b"simple", b":780088\r\n:647FAB72\r\n");
    show(
        b"extended",
        b":78A00181000102FFFFFFFF930000D4\r\n:00A0FE00000000000001010A0003112233ED\r\n",
    );
    show(b"response", b":DBA1120171\r\n:DBA1000084\r\n");
    show(
        b"standard",
        b":7881150175810000380026C9000C04220000FFFFFFFFFFA7\r\n",
    );
    show(
        b"remote",
        b":78810F0175810000380026C900BEEF00010000002C\r\n",
    );
    show(
        b"refused 7",
        b":01FF\r\n:DBA10183\r\n:008100000000000000000000000000000000000000007F\r\n:00A0000000000000000000000060\r\n",
    );
    show(b"refused 8", b":65009B\r\n:80A0010203DA\r\n:FF0001\r\n");
    show(b"refused 9", b":DBA0010183\r\n:008080\r\n:01A100005E\r\n");
    show(
        b"refused 11",
        b":DBA1010281\r\n:00810002000000000000000000000000000000000000007D\r\n:00810E010000000000000000000000000000000070\r\n",
    );
    show(
        b"refused 12",
        b":00A00000000000000000000000015F\r\n:00A00000000000000000000001000956\r\n",
    );
}

// What the module says of itself when it is set up, and the refusals of that.
fn show_settings() {
    show(
        b"settings",
        b":DBF00134\r\n:DBF16772010200010407788100003800011A\r\n:DBF332\r\n:DBF30378B7\r\n:DBF3FF33\r\n:DBF3FF0033\r\n:DBF811011B\r\n:DBF811001C\r\n",
    );
    show(
        b"every setting",
        b":DBF3FF010C0D0A0AA0A1A2A3A4A5A6A7A8A9AAABACADAEAF09010801070001C200060205020400037802008301000400000067720102BC\r\n",
    );
    show(
        b"settings refused 7",
        b":DBF035\r\n:DBF0010034\r\n:DBF167720102000104077881000038001B\r\n:DBF1677201020001040778810000380001001A\r\n:DBF8111C\r\n:DBF81100001C\r\n",
    );
    show(
        b"settings refused 9",
        b":DBF233\r\n:DBF40130\r\n:DBFF26\r\n",
    );
    show(
        b"settings refused 11",
        b":DBF00035\r\n:DBF810011C\r\n:DBF811021A\r\n",
    );
    show(
        b"refused 17",
        b":DBF30B0027\r\n:DBF3030003002C\r\n:DBF3020030\r\n:DBF3032F\r\n:DBF30378FFB8\r\n",
    );
}

// Damage: what is no frame, and good frames behind it.
fn show_damage() {
    show(b"wrong checksum", b":00010203FB\r\n:DBA1120171\r\n");
    show(b"small letters", b":00010203fa\r\n:DBA1120171\r\n");
    show(b"the ending X", b":00010203X\r\n:DBA1120171\r\n");
    show(b"cut short", b":0001020:DBA1120171\r\n:DBA112");
    show(b"colons", b":::::DBA1120171\r\n:");
    show(
        b"odd digits and wrong end",
        b":001\r\n:00010203FA\rX:DBA1120171\r\n",
    );
    show(b"unfinished at the end", b":DBA1120171\r\n:00010203FA\r");
}

// Binary framing with the footer optional: frames with it and without it, one with a second footer, which is noise, and one whose checksum is 04; then a
// frame behind damage that fails at the frame's footer, and frames that the quiet finds.
fn show_footers() {
    show_binary(
        b"optional footers",
        b"A5 5A 80 04 DB A1 12 01 69 04 A5 5A 80 04 DB A1 00 00 7A A5 5A 80 03 78 00 04 7C 04 04 A5 5A 80 02 00 04 04 A5 5A 80 01 01 01 04",
    );
    show_binary(
        b"footers behind damage",
        b"A5 5A 80 09 A5 5A 80 04 DB A1 12 01 69 04 A5 5A 80 20 A5 5A 80 02 78 00 78 04 A5 5A 80 02 00 04 04 04 04",
    );
}

// Lists every segment of the four groups, then the longest frames, then one that is too long.
fn main() {
    show_kinds();
    show_settings();
    show_damage();
    show_footers();
    show_longest(b"longest simple", &[1, 2]);
    show_longest(
        b"longest extended",
        &[1, 0xA0, 2, 3, 4, 5, 6, 7, 8, 9, 10, 11, 0, 242],
    );
    show_too_long();
}
