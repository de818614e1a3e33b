ghost use Rattle.std.specs.Prelude.{◌≡◌};
ghost use Rattle.ir.specs.Bitvectors.{sign_extend};

use crate::width::Width;

/// A signed number of a width, at another width.
pub(crate) fn sign_extend(from: Width, width: Width, x: u64) -> u64
    ensures { result ≡ sign_extend from.bits width.bits x }
{
    width.unsigned(from.signed(x))
}
