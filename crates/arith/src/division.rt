ghost use Rattle.std.specs.Prelude.{◌≡◌, ◌-◌, ◌/◌, ◌%◌, ◌^◌, ◌==◌, ◌||◌};
ghost use Rattle.ir.specs.Bitvectors.{quotient_overflows, signed_div, signed_rem};
ghost use Rattle.ir.specs.Operations.{unless};
ghost use Rattle.arith.specs.Division.{unsigned_division, signed_division};

use crate::width::Width;

/// A quotient, and what the division leaves.
#[derive(Clone, Copy, PartialEq, Eq, Debug)]
pub(crate) struct Division {
    pub(crate) quotient: u64,
    pub(crate) remainder: u64,
}

/// The division of unsigned numbers, none by 0.
pub(crate) fn divide(x: u64, y: u64) -> Option<Division>
    ensures { result ≡ unsigned_division x y }
{
    if y == 0 {
        return None;
    }
    Some(Division {
        quotient: x / y,
        remainder: x % y,
    })
}

/// Whether the smallest signed number is divided by -1.
fn quotient_overflows(width: Width, x: u64, y: u64) -> bool
    ensures { result ≡ quotient_overflows width.bits x y }
{
    let max = width.max();
    x == max / 2 + 1 && y == max
}

/// The division of signed numbers, rounded toward zero: none by 0, and none where the quotient is out of range.
pub(crate) fn divide_signed(width: Width, x: u64, y: u64) -> Option<Division>
    ensures { result ≡ signed_division width.bits x y }
{
    if y == 0 || quotient_overflows(width, x, y) {
        return None;
    }
    let (x, y) = (width.signed(x), width.signed(y));
    Some(Division {
        quotient: width.unsigned(x / y),
        remainder: width.unsigned(x % y),
    })
}

/// The quotient of unsigned numbers, none by 0.
#[tactic(auto, using(crate::proofs::Divisions::quotient_of_pair))]
pub(crate) fn quotient(x: u64, y: u64) -> Option<u64>
    ensures { result ≡ unless (y == 0) (x / y) }
{
    divide(x, y).map(|division| division.quotient)
}

/// The remainder of unsigned numbers, none by 0.
#[tactic(auto, using(crate::proofs::Divisions::remainder_of_pair))]
pub(crate) fn remainder(x: u64, y: u64) -> Option<u64>
    ensures { result ≡ unless (y == 0) (x % y) }
{
    divide(x, y).map(|division| division.remainder)
}

/// The quotient of signed numbers, none where there is no division.
#[tactic(auto, using(crate::proofs::Divisions::quotient_of_pair))]
pub(crate) fn signed_quotient(width: Width, x: u64, y: u64) -> Option<u64>
    ensures { result ≡ unless (y == 0 || quotient_overflows width.bits x y) (signed_div width.bits x y) }
{
    divide_signed(width, x, y).map(|division| division.quotient)
}

/// The remainder of signed numbers, none where there is no division.
#[tactic(auto, using(crate::proofs::Divisions::remainder_of_pair))]
pub(crate) fn signed_remainder(width: Width, x: u64, y: u64) -> Option<u64>
    ensures { result ≡ unless (y == 0 || quotient_overflows width.bits x y) (signed_rem width.bits x y) }
{
    divide_signed(width, x, y).map(|division| division.remainder)
}

/// The remainder of signed numbers, none by 0: where the quotient is out of range, nothing remains.
pub(crate) fn signed_remainder_or_zero(width: Width, x: u64, y: u64) -> Option<u64>
    ensures { result ≡ unless (y == 0) (signed_rem width.bits x y) }
{
    if quotient_overflows(width, x, y) {
        Some(0)
    } else {
        signed_remainder(width, x, y)
    }
}
