ghost use Rattle.std.specs.Prelude.{◌≡◌, Some};
ghost use Rattle.script.specs.Printed.{error_text};
ghost use Rattle.script.specs.declared.error.ScriptError.TheVariants as script_error;

use std::alloc::{AllocError, AllocFailed};
use std::error::Error;
use std::fmt;

/// Why a script is not read.
#[derive(Clone, Copy, PartialEq, Eq, Debug)]
pub enum ScriptError {
    /// Memory ran out.
    Memory,
    /// The number, from 1, of the first line that cannot be read.
    Line(usize),
}

// Memory runs out by two errors of std, and `?` takes one impl for each.
impl From<AllocError> for ScriptError {
    ghost from_gives = { λ _ r. r ≡ script_error.Memory };

    fn from(_e: AllocError) -> ScriptError {
        ScriptError::Memory
    }
}

impl<T: Drop> From<AllocFailed<T>> for ScriptError {
    ghost from_gives = { λ _ r. r ≡ script_error.Memory };

    fn from(_e: AllocFailed<T>) -> ScriptError {
        ScriptError::Memory
    }
}

impl fmt::Display for ScriptError {
    ghost output = { λ e. Some (error_text e) };

    fn fmt<W: fmt::Write>(&self, f: &mut fmt::Formatter<W>) -> fmt::Result {
        match self {
            ScriptError::Memory => f.write_str("memory ran out"),
            ScriptError::Line(number) => write!(f, "line {number} cannot be read"),
        }
    }
}

impl Error for ScriptError {}
