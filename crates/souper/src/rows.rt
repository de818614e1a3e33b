use ir::Word;

/// An operand of a row.
#[derive(Clone, Copy, PartialEq, Eq, Debug)]
pub enum Operand {
    /// An earlier row.
    Row(u32),
    /// An immediate, read modulo 2 to the width.
    // The width stands first, so that an operand takes 16 bytes.
    Constant { width: u8, imm: i64 },
    /// The zero of a select's helper, which has no width.
    Zero,
}

/// The operands of a row, in order.
#[derive(Clone, Copy, PartialEq, Eq, Debug)]
pub enum RowOperands {
    Empty,
    One(Operand),
    Two(Operand, Operand),
    Three(Operand, Operand, Operand),
}

/// A row of a left-hand side: a word over its operands.
#[derive(Clone, Copy, PartialEq, Eq, Debug)]
pub struct Row {
    /// The bits of what the row computes.
    pub width: u8,
    pub word: Word,
    pub operands: RowOperands,
}

impl Row {
    /// What a table holds where nothing was written: no row, since it has no width.
    pub const BLANK: Row = Row {
        width: 0,
        word: Word::Var,
        operands: RowOperands::Empty,
    };
}

// A blank is no row, and passes no check of widths.
const _: () = prove!(Row::BLANK.width == 0);
