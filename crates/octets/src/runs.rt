// How many bytes at the front of a slice pass a test.
ghost use Rattle.std.specs.Prelude.{◌≡◌, ℕ, Bool, ◌*◌, ◌/◌, ◌==◌, ◌≤◌, length};
ghost use Rattle.std.specs.List.{prefix_len};
ghost use Rattle.octets.specs.Runs.{IsTest};

// Whether all bytes of a block pass. Each is tested, without a branch, in a loop of fixed length, which is vectorised.
fn all_pass<F: Fn(u8) -> bool>(block: &[u8; 16], passes: &F) -> bool
    requires { F.IsAlwaysCallable passes.now }
    ensures { (p : ℕ → Bool) → IsTest (F.post passes.now) p → result ≡ (prefix_len p block.now == 16) }
{
    let mut all = true;
    for b in block {
        all &= passes(*b);
    }
    all
}

// How many bytes the whole blocks of 16 at the front of s have that pass.
pub fn block_run_len<F: Fn(u8) -> bool>(s: &[u8], passes: F) -> usize
    requires { F.IsAlwaysCallable passes }
    ensures bound { result ≤ length s.now }
    ensures value { (p : ℕ → Bool) → IsTest (F.post passes) p → result ≡ prefix_len p s.now / 16 * 16 }
{
    let (blocks, _) = s.as_chunks::<16>();
    for (i, block) in blocks.iter().enumerate() {
        if !all_pass(block, &passes) {
            return 16 * i;
        }
    }
    16 * blocks.len()
}

// How many bytes at the front of s pass, one by one.
pub fn run_len<F: Fn(u8) -> bool>(s: &[u8], passes: F) -> usize
    requires { F.IsAlwaysCallable passes }
    ensures bound { result ≤ length s.now }
    ensures value { (p : ℕ → Bool) → IsTest (F.post passes) p → result ≡ prefix_len p s.now }
{
    // Kept: by a loop and not by `position`, of which it stayed open for a test of any kind that the count is `prefix_len` (`returns-clause-value`).
    for (i, b) in s.iter().enumerate() {
        if !passes(*b) {
            return i;
        }
    }
    s.len()
}
