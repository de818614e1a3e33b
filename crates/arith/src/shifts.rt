ghost use Rattle.std.specs.Prelude.{◌≡◌, ◌%◌, ◌<◌};
ghost use Rattle.ir.specs.Bitvectors.{shift_left, shift_right, signed_shift_right};

use crate::width::Width;

/// The amount by which the IR shifts, given any number.
pub(crate) fn reduced(width: Width, amount: u64) -> u64
    ensures { result ≡ amount % width.bits }
{
    amount % u64::from(width.bits)
}

/// A shift to the left, by less than the width.
#[tactic(auto, using(crate::proofs::Masks::masked), unfolding(ir::specs::Bitvectors::shift_left))]
pub(crate) fn shift_left(width: Width, x: u64, amount: u64) -> u64
    requires { amount < width.bits }
    ensures { result ≡ shift_left width.bits x amount }
{
    (x << amount) & width.max()
}

/// A shift to the right, by less than the width.
#[tactic(auto, unfolding(ir::specs::Bitvectors::shift_right))]
pub(crate) fn shift_right(width: Width, x: u64, amount: u64) -> u64
    requires { amount < width.bits }
    ensures { result ≡ shift_right x amount }
{
    x >> amount
}

/// A shift to the right that copies the sign, by less than the width.
pub(crate) fn signed_shift_right(width: Width, x: u64, amount: u64) -> u64
    requires { amount < width.bits }
    ensures { result ≡ signed_shift_right width.bits x amount }
{
    width.unsigned(width.signed(x) >> amount)
}
