// The text of a listing, which is written into a lent buffer part after part.
ghost use Rattle.std.specs.Prelude.{◌≡◌, []};
ghost use Rattle.frame.specs.Hex.{hex};
ghost use Rattle.listing.specs.Line.{decimal, data_field, field};
ghost use Rattle.listing.specs.Parts.{Starts, HasRoom, Adds, CanCount};

// The lines of the frames are the first `len` bytes of the buffer, `noise` bytes were settled as noise, and the reader's calls judged `judged` bytes.
#[derive(Clone, Copy, Debug, Default, PartialEq, Eq)]
pub struct Lines {
    pub len: usize,
    pub noise: usize,
    pub judged: usize,
}

// What is listed so far, in the front of the buffer. Each method that puts text writes it behind that.
#[derive(Drop)]
pub(crate) struct Listing<'a> {
    out: &'a mut [u8],
    lines: Lines,
}

impl<'a> Listing<'a> {
    pub(crate) fn new(out: &'a mut [u8]) -> Listing<'a>
        ensures { Starts out.entry result }
    {
        Listing {
            out,
            lines: Lines::default(),
        }
    }

    pub(crate) fn lines(&self) -> Lines
        ensures { result ≡ self.now.lines }
    {
        self.lines
    }

    // Counts what a call settled as noise and judged.
    pub(crate) fn count(&mut self, noise: usize, judged: usize)
        requires { CanCount self.old noise judged }
        ensures { Adds self.old [] noise judged self.new }
    {
        self.lines.noise += noise;
        self.lines.judged += judged;
    }

    // Puts all of s.
    pub(crate) fn put(&mut self, s: &[u8])
        requires { HasRoom self.old s.now }
        ensures { Adds self.old s.now 0 0 self.new }
    {
        let out = &mut *self.out;
        self.lines.len += octets::copy(s, &mut out[self.lines.len..]);
    }

    // Puts the two hex digits of each byte.
    fn put_hex(&mut self, bytes: &[u8])
        requires { HasRoom self.old (hex bytes.now) }
        ensures { Adds self.old (hex bytes.now) 0 0 self.new }
    {
        let out = &mut *self.out;
        frame::encode_hex(bytes, &mut out[self.lines.len..]);
        self.lines.len += 2 * bytes.len();
    }

    // Puts a field: its bytes in hex, behind a space.
    pub(crate) fn put_field(&mut self, bytes: &[u8])
        requires { HasRoom self.old (field bytes.now) }
        ensures { Adds self.old (field bytes.now) 0 0 self.new }
    {
        self.put(b" ");
        self.put_hex(bytes);
    }

    // Puts the field of a message's data.
    pub(crate) fn put_data(&mut self, data: &[u8])
        requires { HasRoom self.old (data_field «data».now) }
        ensures { Adds self.old (data_field «data».now) 0 0 self.new }
    {
        if data.is_empty() {
            self.put(b" -");
        } else {
            self.put_field(data);
        }
    }

    // Puts n in decimal.
    pub(crate) fn put_decimal(&mut self, n: u64)
        requires { HasRoom self.old (decimal n) }
        ensures { Adds self.old (decimal n) 0 0 self.new }
    {
        let mut digits = [0u8; 20];
        let count = io::decimal(n, &mut digits);
        self.put(&digits[..count]);
    }
}
