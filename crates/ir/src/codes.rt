ghost use Rattle.std.specs.Prelude.{◌≡◌, slice_get};
ghost use Rattle.ir.specs.Codes.{known, OpcodeCodes, IntCCCodes, TypeBits, CauseNumbers};

use crate::refusal::Cause;

/// What a code stands for, where all that there is stands in the order of the codes.
pub(crate) fn coded<T: Copy>(all: &[T], code: u8) -> Result<T, Cause>
    ensures { result ≡ known (slice_get all.now code) }
{
    all.get(usize::from(code)).copied().ok_or(Cause::Unknown)
}

/// Numbers and cases go with each other, one to one: opcodes, conditions, types and refusals.
pub fn codes_stand()
    ensures opcodes { OpcodeCodes }
    ensures conditions { IntCCCodes }
    ensures types { TypeBits }
    ensures causes { CauseNumbers }
{}
