// Address ranges.
ghost use Rattle.std.specs.Prelude.{◌≡◌};
ghost use Rattle.message.specs.Address.{is_plain, is_extended};

// Whether a is a plain address: 0, 1 to 100, or 120.
#[tactic(auto, unfolding(crate::specs::Address::is_plain))]
pub(crate) fn is_plain(a: u8) -> bool
    ensures { result ≡ is_plain a }
{
    matches!(a, 0..=100 | 120)
}

// Whether w is an extended address: 0 to FFFF, or 80000000 to FFFFFFFE.
#[tactic(auto, unfolding(crate::specs::Address::is_extended))]
pub(crate) fn is_extended(w: u32) -> bool
    ensures { result ≡ is_extended w }
{
    matches!(w, 0..=0xFFFF | 0x80000000..=0xFFFFFFFE)
}
