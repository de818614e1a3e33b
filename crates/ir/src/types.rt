ghost use Rattle.std.specs.Prelude.{◌≡◌, Some};
ghost use Rattle.ir.specs.Codes.{type_bits, type_at, type_or, type_name, known};
ghost use Rattle.ir.specs.Widths.{is_integer};

use crate::refusal::Cause;
use std::fmt;

/// The type of a value.
#[derive(Clone, Copy, PartialEq, Eq, Debug)]
pub enum Type {
    /// of a deleted or missing value
    Invalid,
    /// anything but an integer of 8, 16, 32 or 64 bits
    Other,
    I8,
    I16,
    I32,
    I64,
}

impl Type {
    /// The bits of an integer type, 1 for any other type, 0 for the invalid one.
    pub fn bits(self) -> u8
        ensures { result ≡ type_bits self }
    {
        match self {
            Type::Invalid => 0,
            Type::Other => 1,
            Type::I8 => 8,
            Type::I16 => 16,
            Type::I32 => 32,
            Type::I64 => 64,
        }
    }

    /// Whether it is an integer of 8, 16, 32 or 64 bits.
    pub fn is_int(self) -> bool
        ensures { result ≡ is_integer (type_bits self) }
    {
        matches!(self, Type::I8 | Type::I16 | Type::I32 | Type::I64)
    }

    /// The type of a live value that has so many bits, the invalid one where no live value has so many.
    pub fn from_bits_or_invalid(bits: u16) -> Type
        ensures { result ≡ type_or bits }
    {
        Type::try_from(bits).unwrap_or(Type::Invalid)
    }

    /// Its name, as a script writes it.
    pub fn name(self) -> &'static str
        ensures { result.now ≡ type_name self }
    {
        match self {
            Type::Invalid => "invalid",
            Type::Other => "other",
            Type::I8 => "i8",
            Type::I16 => "i16",
            Type::I32 => "i32",
            Type::I64 => "i64",
        }
    }
}

/// The type of a live value that has so many bits; no live value has another number of them.
impl TryFrom<u16> for Type {
    type Error = Cause;

    ghost try_from_gives = { λ bits r. r ≡ known (type_at bits) };

    fn try_from(bits: u16) -> Result<Type, Cause> {
        match bits {
            1 => Ok(Type::Other),
            8 => Ok(Type::I8),
            16 => Ok(Type::I16),
            32 => Ok(Type::I32),
            64 => Ok(Type::I64),
            _ => Err(Cause::Unknown),
        }
    }
}

/// Its name.
impl fmt::Display for Type {
    ghost output = { λ t. Some (type_name t) };

    fn fmt<W: fmt::Write>(&self, f: &mut fmt::Formatter<W>) -> fmt::Result {
        f.write_str(self.name())
    }
}
