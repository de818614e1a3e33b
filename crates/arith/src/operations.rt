ghost use Rattle.std.specs.Prelude.{◌≡◌};
ghost use Rattle.ir.specs.Operations.{compute};

use crate::compare::holds;
use crate::counts::{leading_zeros, trailing_zeros};
use crate::division::{quotient, remainder, signed_quotient, signed_remainder_or_zero};
use crate::extend::sign_extend;
use crate::numbers::number_at;
use crate::reversal::bit_reverse;
use crate::saturating::{signed_saturating_add, signed_saturating_sub};
use crate::shifts::{reduced, shift_left, shift_right, signed_shift_right};
use crate::width::Width;
use crate::wrapping::{complement, wrapping_add, wrapping_mul};
use ir::{IntCC, Opcode};

/// What an operation of the IR gives, or none where it traps. `width` is the width of its result and `first` that of its first
/// operand; an operand that is not there is 0.
pub fn compute(
    opcode: Opcode,
    cond: IntCC,
    width: Width,
    first: Width,
    operands: &[u64],
) -> Option<u64>
    ensures { result ≡ compute opcode cond width.bits first.bits operands.now }
{
    let x = number_at(operands, 0);
    let y = number_at(operands, 1);
    match opcode {
        Opcode::Iconst | Opcode::Opaque => None,
        Opcode::Iadd => Some(wrapping_add(width, x, y)),
        Opcode::Imul => Some(wrapping_mul(width, x, y)),
        Opcode::Udiv => quotient(x, y),
        Opcode::Sdiv => signed_quotient(width, x, y),
        Opcode::Urem => remainder(x, y),
        Opcode::Srem => signed_remainder_or_zero(width, x, y),
        Opcode::Band => Some(x & y),
        Opcode::Bor => Some(x | y),
        Opcode::Bxor => Some(x ^ y),
        Opcode::Bnot => Some(complement(width, x)),
        Opcode::Ishl => Some(shift_left(width, x, reduced(width, y))),
        Opcode::Sshr => Some(signed_shift_right(width, x, reduced(width, y))),
        Opcode::Ushr => Some(shift_right(width, x, reduced(width, y))),
        Opcode::Select => Some(if x == 0 { number_at(operands, 2) } else { y }),
        Opcode::Uextend => Some(x),
        Opcode::Sextend => Some(sign_extend(first, width, x)),
        Opcode::Icmp => Some(u64::from(holds(cond, first, x, y))),
        Opcode::Popcnt => Some(u64::from(x.count_ones())),
        Opcode::Bitrev => Some(bit_reverse(width, x)),
        Opcode::Clz => Some(u64::from(leading_zeros(width, x))),
        Opcode::Ctz => Some(u64::from(trailing_zeros(width, x))),
        Opcode::SaddSat => Some(signed_saturating_add(width, x, y)),
        Opcode::SsubSat => Some(signed_saturating_sub(width, x, y)),
        Opcode::UsubSat => Some(x.saturating_sub(y)),
    }
}
