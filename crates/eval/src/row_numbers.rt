ghost use Rattle.std.specs.Prelude.{◌≡◌, ◌≤◌, length, option_map, take, slice_index_or};
ghost use Rattle.souper.specs.Rows.{first_width, listed, operand_number, operand_numbers};
ghost use Rattle.souper.specs.Widths.{WidthsPass};
ghost use Rattle.eval.specs.Known.{AllReadable, Holds, Readable, RowReady, perhaps, row_from};

use arith::{Width, apply, number_at};
use souper::check::operand_width;
use souper::{Operand, Row, RowOperands};

/// How many rows a left-hand side can have.
pub const MAX_ROWS: usize = 2048;

/// The number on a row, none where it is undefined.
pub(crate) fn number_on(numbers: &[Option<u64>], r: u32) -> Option<u64>
    ensures { result ≡ slice_index_or numbers.now r None }
{
    numbers.get(r as usize).copied().flatten()
}

/// The number of an operand, none where it is undefined.
fn operand_number(numbers: &[Option<u64>], x: Operand) -> Option<u64>
    requires { Readable x }
    ensures { result ≡ operand_number (perhaps numbers.now) x }
{
    match x {
        Operand::Row(r) => number_on(numbers, r),
        Operand::Constant { width, imm } => Some(Width::new(width)?.unsigned(imm)),
        Operand::Zero => Some(0),
    }
}

/// How many operands there are.
fn count(operands: RowOperands) -> usize
    ensures { result ≡ length (listed operands) }
{
    match operands {
        RowOperands::Empty => 0,
        RowOperands::One(_) => 1,
        RowOperands::Two(_, _) => 2,
        RowOperands::Three(_, _, _) => 3,
    }
}

/// The numbers of operands, as far as there are operands; none where one is undefined.
fn operand_numbers(numbers: &[Option<u64>], operands: RowOperands) -> Option<[u64; 3]>
    requires { AllReadable operands }
    ensures { option_map (take (length (listed operands))) result ≡ operand_numbers (perhaps numbers.now) operands }
{
    match operands {
        RowOperands::Empty => Some([0; 3]),
        RowOperands::One(x) => Some([operand_number(numbers, x)?, 0, 0]),
        RowOperands::Two(x, y) => {
            Some([operand_number(numbers, x)?, operand_number(numbers, y)?, 0])
        }
        RowOperands::Three(x, y, z) => Some([
            operand_number(numbers, x)?,
            operand_number(numbers, y)?,
            operand_number(numbers, z)?,
        ]),
    }
}

/// The width of the first operand, 0 where there is none.
fn first_width(rows: &[Row], operands: RowOperands) -> u8
    ensures { result ≡ first_width rows.now operands }
{
    match operands {
        RowOperands::Empty => 0,
        RowOperands::One(x) | RowOperands::Two(x, _) | RowOperands::Three(x, _, _) => {
            operand_width(rows, x)
        }
    }
}

/// The number on a row from its input and the numbers on the rows before it, none where it is undefined.
fn row_from(rows: &[Row], numbers: &[Option<u64>], input: u64, row: Row) -> Option<u64>
    requires { RowReady rows.now row }
    ensures { result ≡ row_from rows.now numbers.now input row }
{
    let width = Width::new(row.width)?;
    // A variable has no operand, and reads no width of one.
    let first = Width::new(first_width(rows, row.operands)).unwrap_or(width);
    let operands = operand_numbers(numbers, row.operands)?;
    apply(
        row.word,
        input,
        width,
        first,
        &operands[..count(row.operands)],
    )
}

/// The numbers on the first `count` rows, none where a row is undefined.
pub(crate) fn numbers_on(rows: &[Row], count: usize, inputs: &[u64]) -> [Option<u64>; MAX_ROWS]
    requires pass { WidthsPass rows.now }
    requires there { count ≤ length rows.now }
    requires few { count ≤ 2048 }
    ensures { Holds rows.now inputs.now result count }
{
    let mut numbers = [None; MAX_ROWS];
    for (r, row) in rows[..count].iter().enumerate() {
        numbers[r] = row_from(rows, &numbers, number_at(inputs, r), *row);
    }
    numbers
}
