// Parts of slices, as much of them as there is.
ghost use Rattle.std.specs.Prelude.{◌≡◌, ◌+◌, min, length, take, drop};
ghost use Rattle.std.proofs.Math.Seq.{paste};
ghost use Rattle.io.specs.Counts.{IsPrefixLen};
ghost use Rattle.console.specs.Part.{fitting};

// The first n bytes of s, or all of them where there are fewer.
pub fn front(s: &[u8], n: usize) -> &[u8]
    ensures { result.now ≡ take n s.now }
{
    &s[..n.min(s.len())]
}

// The bytes of s behind the first n, or none where there are fewer.
pub fn rest(s: &[u8], n: usize) -> &[u8]
    ensures { result.now ≡ drop n s.now }
{
    &s[n.min(s.len())..]
}

// Puts the bytes of s into buf from the place `at` on, as many as fit, and gives the place behind them. Where buf ends before `at`, none fit and the place
// is buf's end.
pub fn append(buf: &mut [u8], at: usize, s: &[u8]) -> usize
    ensures prefix_len { IsPrefixLen result buf.new }
    ensures value { result ≡ min at (length buf.old) + fitting buf.old at s.now }
    ensures buf_after { buf.new ≡ paste buf.old at s.now (fitting buf.old at s.now) }
{
    let from = at.min(buf.len());
    let end = from + s.len().min(buf.len() - from);
    buf[from..end].copy_from_slice(&s[..end - from]);
    end
}
