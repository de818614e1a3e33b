ghost use Rattle.std.specs.Prelude.{◌≡◌};
ghost use Rattle.souper.specs.Words.{apply};

use crate::compare::holds;
use crate::counts::{leading_zeros, trailing_zeros};
use crate::division::{quotient, remainder, signed_quotient, signed_remainder};
use crate::extend::sign_extend;
use crate::numbers::number_at;
use crate::reversal::bit_reverse;
use crate::saturating::{signed_saturating_add, signed_saturating_sub};
use crate::shifts::{shift_left, shift_right, signed_shift_right};
use crate::width::Width;
use crate::wrapping::{wrapping_add, wrapping_mul};
use ir::{IntCC, Word};

/// What a word of Souper gives, or none where it is undefined. `width` is the width of its row, `first` that of its first operand,
/// and `input` what a variable holds; an operand that is not there is 0.
pub fn apply(word: Word, input: u64, width: Width, first: Width, operands: &[u64]) -> Option<u64>
    ensures { result ≡ apply word input width.bits first.bits operands.now }
{
    let x = number_at(operands, 0);
    let y = number_at(operands, 1);
    match word {
        Word::Var => Some(input),
        Word::Add => Some(wrapping_add(width, x, y)),
        Word::Mul => Some(wrapping_mul(width, x, y)),
        Word::Udiv => quotient(x, y),
        Word::Sdiv => signed_quotient(width, x, y),
        Word::Urem => remainder(x, y),
        Word::Srem => signed_remainder(width, x, y),
        Word::And => Some(x & y),
        Word::Or => Some(x | y),
        Word::Xor => Some(x ^ y),
        Word::Shl if y < u64::from(width.bits) => Some(shift_left(width, x, y)),
        Word::Ashr if y < u64::from(width.bits) => Some(signed_shift_right(width, x, y)),
        Word::Lshr if y < u64::from(width.bits) => Some(shift_right(width, x, y)),
        Word::Shl | Word::Ashr | Word::Lshr => None,
        Word::Select => Some(if x == 0 { number_at(operands, 2) } else { y }),
        Word::Zext => Some(x),
        Word::Sext => Some(sign_extend(first, width, x)),
        Word::Eq => Some(u64::from(holds(IntCC::Equal, first, x, y))),
        Word::Ne => Some(u64::from(holds(IntCC::NotEqual, first, x, y))),
        Word::Slt => Some(u64::from(holds(IntCC::SignedLessThan, first, x, y))),
        Word::Sle => Some(u64::from(holds(IntCC::SignedLessThanOrEqual, first, x, y))),
        Word::Ult => Some(u64::from(holds(IntCC::UnsignedLessThan, first, x, y))),
        Word::Ule => Some(u64::from(holds(IntCC::UnsignedLessThanOrEqual, first, x, y))),
        Word::Ctpop => Some(u64::from(x.count_ones())),
        Word::Bitreverse => Some(bit_reverse(width, x)),
        Word::Ctlz => Some(u64::from(leading_zeros(width, x))),
        Word::Cttz => Some(u64::from(trailing_zeros(width, x))),
        Word::SaddSat => Some(signed_saturating_add(width, x, y)),
        Word::SsubSat => Some(signed_saturating_sub(width, x, y)),
        Word::UsubSat => Some(x.saturating_sub(y)),
    }
}
