ghost use Rattle.std.specs.Prelude.{◌≡◌, ◌-◌};
ghost use Rattle.std.specs.Int.{saturate_to_bits};
ghost use Rattle.ir.specs.Bitvectors.{unsigned, signed_saturating_add, signed_saturating_sub};

use crate::width::Width;

/// The signed number of the width that is nearest to an integer.
fn saturated(width: Width, z: i64) -> u64
    ensures { result ≡ unsigned width.bits (saturate_to_bits (width.bits - 1) z) }
{
    let max = (width.max() / 2) as i64;
    width.unsigned(z.clamp(-max - 1, max))
}

/// The signed number that is nearest to the sum.
pub(crate) fn signed_saturating_add(width: Width, x: u64, y: u64) -> u64
    ensures { result ≡ signed_saturating_add width.bits x y }
{
    saturated(width, width.signed(x).saturating_add(width.signed(y)))
}

/// The signed number that is nearest to the difference.
pub(crate) fn signed_saturating_sub(width: Width, x: u64, y: u64) -> u64
    ensures { result ≡ signed_saturating_sub width.bits x y }
{
    saturated(width, width.signed(x).saturating_sub(width.signed(y)))
}
