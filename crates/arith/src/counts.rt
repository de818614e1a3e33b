ghost use Rattle.std.specs.Prelude.{◌≡◌};
ghost use Rattle.std.specs.Int.Count.{count_leading_zeros, count_trailing_zeros};

use crate::width::Width;

/// The zeros above the highest set bit; none above a bit beyond the width.
#[tactic(auto, using(crate::proofs::Zeros::leading_narrower))]
pub(crate) fn leading_zeros(width: Width, x: u64) -> u32
    ensures { result ≡ count_leading_zeros width.bits x }
{
    x.leading_zeros().saturating_sub(64 - u32::from(width.bits))
}

/// The zeros below the lowest set bit, as far as the width goes.
#[tactic(auto, using(crate::proofs::Zeros::trailing_narrower))]
pub(crate) fn trailing_zeros(width: Width, x: u64) -> u32
    ensures { result ≡ count_trailing_zeros width.bits x }
{
    x.trailing_zeros().min(u32::from(width.bits))
}
