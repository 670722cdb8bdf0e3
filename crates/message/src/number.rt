// Big-endian numbers in slices.
ghost use Rattle.std.specs.Prelude.{◌≡◌, ◌+◌, ◌<◌, length};
ghost use Rattle.message.specs.Number.{word_at, long_at};

// The 16-bit number at i.
// Kept: with u16::from_be_bytes and u32::from_be_bytes over arrays of the bytes, reading statuses takes 10 % more instructions.
pub(crate) fn word(s: &[u8], i: usize) -> u16
    requires { i + 1 < length s.now }
    ensures { result ≡ word_at s.now i }
{
    u16::from(s[i]) * 0x100 + u16::from(s[i + 1])
}

// The 32-bit number at i.
pub(crate) fn long(s: &[u8], i: usize) -> u32
    requires { i + 3 < length s.now }
    ensures { result ≡ long_at s.now i }
{
    u32::from(word(s, i)) * 0x10000 + u32::from(word(s, i + 2))
}
