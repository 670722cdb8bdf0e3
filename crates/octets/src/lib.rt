// Copies of bytes between slices of different lengths, and runs of bytes.
#![tactic(auto)]

mod runs;

ghost use Rattle.std.specs.Prelude.{◌≡◌, ◌≤◌, length, ◌++◌, take, drop};

pub use runs::{block_run_len, run_len};

// Puts the bytes of `from` at the front of `to` and gives how many there are. What stands behind them in `to` stays.
pub fn copy(from: &[u8], to: &mut [u8]) -> usize
    requires { length from.now ≤ length to.old }
    ensures count { result ≡ length from.now }
    ensures bytes { to.new ≡ take (length from.now) from.now ++ drop (length from.now) to.old }
{
    to[..from.len()].copy_from_slice(from);
    from.len()
}
