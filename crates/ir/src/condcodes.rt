ghost use Rattle.std.specs.Prelude.{◌≡◌, Some};
ghost use Rattle.ir.specs.Codes.{intcc_code, intcc_name, intcc_word, intcc_at, known};

use crate::codes::coded;
use crate::refusal::Cause;
use crate::words::Word;
use std::fmt;

/// The conditions of an integer comparison, in the order of their codes.
#[derive(Clone, Copy, PartialEq, Eq, Debug)]
pub enum IntCC {
    Equal,
    NotEqual,
    SignedLessThan,
    SignedGreaterThanOrEqual,
    SignedGreaterThan,
    SignedLessThanOrEqual,
    UnsignedLessThan,
    UnsignedGreaterThanOrEqual,
    UnsignedGreaterThan,
    UnsignedLessThanOrEqual,
}

impl IntCC {
    /// Every condition, in the order of the codes.
    pub const ALL: [IntCC; 10] = [
        IntCC::Equal,
        IntCC::NotEqual,
        IntCC::SignedLessThan,
        IntCC::SignedGreaterThanOrEqual,
        IntCC::SignedGreaterThan,
        IntCC::SignedLessThanOrEqual,
        IntCC::UnsignedLessThan,
        IntCC::UnsignedGreaterThanOrEqual,
        IntCC::UnsignedGreaterThan,
        IntCC::UnsignedLessThanOrEqual,
    ];

    /// The condition's name in the IR.
    pub fn name(self) -> &'static str
        ensures { result.now ≡ intcc_name self }
    {
        match self {
            IntCC::Equal => "eq",
            IntCC::NotEqual => "ne",
            IntCC::SignedLessThan => "slt",
            IntCC::SignedGreaterThanOrEqual => "sge",
            IntCC::SignedGreaterThan => "sgt",
            IntCC::SignedLessThanOrEqual => "sle",
            IntCC::UnsignedLessThan => "ult",
            IntCC::UnsignedGreaterThanOrEqual => "uge",
            IntCC::UnsignedGreaterThan => "ugt",
            IntCC::UnsignedLessThanOrEqual => "ule",
        }
    }

    /// Souper's word for the comparison, none for the four that Souper lacks.
    pub fn word(self) -> Option<Word>
        ensures { result ≡ intcc_word self }
    {
        match self {
            IntCC::Equal => Some(Word::Eq),
            IntCC::NotEqual => Some(Word::Ne),
            IntCC::SignedLessThan => Some(Word::Slt),
            IntCC::SignedLessThanOrEqual => Some(Word::Sle),
            IntCC::UnsignedLessThan => Some(Word::Ult),
            IntCC::UnsignedLessThanOrEqual => Some(Word::Ule),
            IntCC::SignedGreaterThanOrEqual
            | IntCC::SignedGreaterThan
            | IntCC::UnsignedGreaterThanOrEqual
            | IntCC::UnsignedGreaterThan => None,
        }
    }
}

/// The number by which a caller knows the condition.
impl From<IntCC> for u8 {
    ghost from_gives = { λ c code. code ≡ intcc_code c };

    fn from(cond: IntCC) -> u8 {
        cond as u8
    }
}

/// The condition of a code; no other code is known.
impl TryFrom<u8> for IntCC {
    type Error = Cause;

    ghost try_from_gives = { λ code r. r ≡ known (intcc_at code) };

    fn try_from(code: u8) -> Result<IntCC, Cause> {
        coded(&IntCC::ALL, code)
    }
}

/// Its name.
impl fmt::Display for IntCC {
    ghost output = { λ c. Some (intcc_name c) };

    fn fmt<W: fmt::Write>(&self, f: &mut fmt::Formatter<W>) -> fmt::Result {
        f.write_str(self.name())
    }
}
