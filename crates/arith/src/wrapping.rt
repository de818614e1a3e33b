ghost use Rattle.std.specs.Prelude.{◌≡◌};
ghost use Rattle.ir.specs.Bitvectors.{wrapping_add, wrapping_mul, complement};

use crate::width::Width;

/// The sum, modulo 2 to the width.
#[tactic(auto, using(crate::proofs::Masks::masked), unfolding(ir::specs::Bitvectors::wrapping_add))]
pub(crate) fn wrapping_add(width: Width, x: u64, y: u64) -> u64
    ensures { result ≡ wrapping_add width.bits x y }
{
    x.wrapping_add(y) & width.max()
}

/// The product, modulo 2 to the width.
#[tactic(auto, using(crate::proofs::Masks::masked), unfolding(ir::specs::Bitvectors::wrapping_mul))]
pub(crate) fn wrapping_mul(width: Width, x: u64, y: u64) -> u64
    ensures { result ≡ wrapping_mul width.bits x y }
{
    x.wrapping_mul(y) & width.max()
}

/// Each bit inverted.
#[tactic(auto, unfolding(ir::specs::Bitvectors::complement))]
pub(crate) fn complement(width: Width, x: u64) -> u64
    ensures { result ≡ complement width.bits x }
{
    width.max().saturating_sub(x)
}
