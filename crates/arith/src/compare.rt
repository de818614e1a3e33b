ghost use Rattle.std.specs.Prelude.{◌≡◌};
ghost use Rattle.ir.specs.Operations.{holds};

use crate::width::Width;
use ir::IntCC;

/// Whether two numbers stand in the relation that a condition names.
pub(crate) fn holds(cond: IntCC, width: Width, x: u64, y: u64) -> bool
    ensures { result ≡ holds cond width.bits x y }
{
    match cond {
        IntCC::Equal => x == y,
        IntCC::NotEqual => x != y,
        IntCC::SignedLessThan => width.signed(x) < width.signed(y),
        IntCC::SignedGreaterThanOrEqual => width.signed(x) >= width.signed(y),
        IntCC::SignedGreaterThan => width.signed(x) > width.signed(y),
        IntCC::SignedLessThanOrEqual => width.signed(x) <= width.signed(y),
        IntCC::UnsignedLessThan => x < y,
        IntCC::UnsignedGreaterThanOrEqual => x >= y,
        IntCC::UnsignedGreaterThan => x > y,
        IntCC::UnsignedLessThanOrEqual => x <= y,
    }
}
