ghost use Rattle.std.specs.Prelude.{◌≡◌};
ghost use Rattle.records.specs.Faults.{is_deleted, type_known, value_fields_fit};
ghost use Rattle.records.specs.Fields.{unpacked};
ghost use Rattle.records.specs.RowsOf.{type_number, value_row};

use ir::{Block, Inst, Type, Value};
use rows::ValueData;

/// A value record, its numbers as they stand.
// The format has numbers for types: they may be unknown, and the check refuses those.
#[derive(Clone, Copy, PartialEq, Eq, Debug)]
pub enum ValueRecord {
    /// tag 0: result `num` of an instruction
    Inst { ty: u16, num: u32, inst: u32 },
    /// tag 1: parameter `num` of a block
    Param { ty: u16, num: u32, block: u32 },
    /// tag 2: another name for `original`
    Alias { ty: u16, x: u32, original: u32 },
    /// tag 3: one of two values
    Union { ty: u16, x: u32, y: u32 },
    /// tag 2 of type 0 with y all ones
    Deleted { x: u32 },
}

impl ValueRecord {
    /// The fields of a value record.
    pub fn unpack(tag: u16, ty: u16, x: u32, y: u32) -> ValueRecord
        ensures { result ≡ unpacked tag ty x y }
    {
        match tag {
            0 => ValueRecord::Inst {
                ty,
                num: x,
                inst: y,
            },
            1 => ValueRecord::Param {
                ty,
                num: x,
                block: y,
            },
            2 if ty == 0 && y == u32::MAX => ValueRecord::Deleted { x },
            2 => ValueRecord::Alias { ty, x, original: y },
            _ => ValueRecord::Union { ty, x, y },
        }
    }

    /// Whether the record is that of a deleted value.
    pub fn is_deleted(self) -> bool
        ensures { result ≡ is_deleted self }
    {
        matches!(self, ValueRecord::Deleted { .. })
    }

    /// The number of the type, 0 of a deleted value.
    fn type_number(self) -> u16
        ensures { result ≡ type_number self }
    {
        match self {
            ValueRecord::Inst { ty, .. }
            | ValueRecord::Param { ty, .. }
            | ValueRecord::Alias { ty, .. }
            | ValueRecord::Union { ty, .. } => ty,
            ValueRecord::Deleted { .. } => 0,
        }
    }

    /// Whether the type is that of a live value, or the value is deleted.
    pub(crate) fn type_known(self) -> bool
        ensures { result ≡ type_known self }
    {
        self.is_deleted() || Type::try_from(self.type_number()).is_ok()
    }

    /// Whether an alias and a deleted value leave x zero, and the block of a parameter is below 64.
    pub(crate) fn fields_fit(self) -> bool
        ensures { result ≡ value_fields_fit self }
    {
        match self {
            ValueRecord::Inst { .. } | ValueRecord::Union { .. } => true,
            ValueRecord::Param { block, .. } => block < 64,
            ValueRecord::Alias { x, .. } | ValueRecord::Deleted { x } => x == 0,
        }
    }

    // A method and no `From`: of numbers that the check refuses, what it answers is no conversion.
    /// The row that the record stands for. A number past 16 bits is cut, and a type that is unknown is invalid: the
    /// check refuses both.
    pub fn row(self) -> ValueData
        ensures { result ≡ value_row self }
    {
        let ty = Type::from_bits_or_invalid(self.type_number());
        match self {
            ValueRecord::Inst { num, inst, .. } => ValueData::Inst {
                ty,
                num: (num % 65_536) as u16,
                inst: Inst(inst),
            },
            ValueRecord::Param { num, block, .. } => ValueData::Param {
                ty,
                num: (num % 65_536) as u16,
                block: Block(block),
            },
            ValueRecord::Alias { original, .. } => ValueData::Alias {
                ty,
                original: Value(original),
            },
            ValueRecord::Union { x, y, .. } => ValueData::Union {
                ty,
                x: Value(x),
                y: Value(y),
            },
            ValueRecord::Deleted { .. } => ValueData::Deleted,
        }
    }
}
