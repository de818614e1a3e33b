ghost use Rattle.std.specs.Prelude.{◌≡◌, ◌^◌, nat_lt};

/// Whether a number has no more bits.
pub(crate) fn fits(bits: u8, number: u64) -> bool
    ensures { result ≡ nat_lt number (2 ^ bits) }
{
    number.checked_shr(u32::from(bits)).unwrap_or(0) == 0
}
