ghost use Rattle.candidates.specs.declared.error.Error.TheVariants.{Memory, Refused};

use ir::Refusal;
use std::alloc::AllocError;

/// Why a call gives nothing: it is refused, or memory ran out.
#[derive(Clone, Copy, PartialEq, Eq, Debug)]
pub enum Error {
    Refused(Refusal),
    Memory,
}

impl From<Refusal> for Error {
    ghost use Rattle.std.specs.Prelude.{◌≡◌};

    ghost from_gives = { λ refusal error. error ≡ Refused refusal };

    fn from(refusal: Refusal) -> Error {
        Error::Refused(refusal)
    }
}

impl From<AllocError> for Error {
    ghost use Rattle.std.specs.Prelude.{◌≡◌};

    ghost from_gives = { λ none error. error ≡ Memory };

    fn from(_: AllocError) -> Error {
        Error::Memory
    }
}
