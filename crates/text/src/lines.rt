ghost use Rattle.std.specs.Prelude.{◌≡◌, ◌^◌, ◌<◌, ◌≤◌, ◌+◌, ◌++◌, length};
ghost use Rattle.text.specs.Buffer.{put};
ghost use Rattle.text.specs.Text.{operand_text, operands_text, row_line, heading, ending};

use crate::buffer::{put, put_number};
use ir::Value;
use souper::{Operand, Row, RowOperands};

/// Puts an operand behind what separates it from what stands before it.
#[tactic(auto, using(crate::proofs::Buffers::put_append), unfolding(crate::specs::Buffer::put))]
fn put_operand(out: &mut [u8], at: usize, separator: &[u8], operand: Operand) -> usize
    requires place { at < 2 ^ 62 }
    requires short { length separator.now ≤ 2 }
    ensures put { (result, out.new) ≡ put (separator.now ++ operand_text operand) (at, out.old) }
    ensures place { result ≤ at + 90 }
{
    let at = put(out, at, separator);
    match operand {
        Operand::Row(row) => {
            let at = put(out, at, b"%");
            put_number(out, at, row)
        }
        Operand::Constant { width, imm } => {
            let at = put_number(out, at, imm);
            let at = put(out, at, b":i");
            put_number(out, at, width)
        }
        Operand::Zero => put(out, at, b"0"),
    }
}

/// Puts the operands of a row, with commas between them.
#[tactic(auto, using(crate::proofs::Buffers::put_append), unfolding(crate::specs::Buffer::put))]
fn put_operands(out: &mut [u8], at: usize, operands: RowOperands) -> usize
    requires { at < 2 ^ 61 }
    ensures put { (result, out.new) ≡ put (operands_text operands) (at, out.old) }
    ensures place { result ≤ at + 270 }
{
    match operands {
        RowOperands::Empty => at,
        RowOperands::One(x) => put_operand(out, at, b" ", x),
        RowOperands::Two(x, y) => {
            let at = put_operand(out, at, b" ", x);
            put_operand(out, at, b", ", y)
        }
        RowOperands::Three(x, y, z) => {
            let at = put_operand(out, at, b" ", x);
            let at = put_operand(out, at, b", ", y);
            put_operand(out, at, b", ", z)
        }
    }
}

/// Writes the line of a row at the front of a buffer that has room for it, and answers its length in any case.
#[tactic(auto, using(crate::proofs::Buffers::put_append), unfolding(crate::specs::Text::row_line, crate::specs::Buffer::put))]
pub(crate) fn write_row(out: &mut [u8], number: usize, row: Row) -> usize
    ensures { (result, out.new) ≡ put (row_line number row) (0, out.old) }
{
    let mut at = put(out, 0, b"%");
    at = put_number(out, at, number);
    at = put(out, at, b":i");
    at = put_number(out, at, row.width);
    at = put(out, at, b" = ");
    at = put(out, at, row.word.text().as_bytes());
    at = put_operands(out, at, row.operands);
    put(out, at, b"\n")
}

/// Writes the first line, with the root and the name of the function.
#[tactic(auto, using(crate::proofs::Buffers::put_append), unfolding(crate::specs::Text::heading, crate::specs::Buffer::put))]
pub(crate) fn write_heading(out: &mut [u8], root: Value, name: &[u8]) -> usize
    ensures { (result, out.new) ≡ put (heading root name.now) (0, out.old) }
{
    let mut at = put(out, 0, b";; Harvested from `v");
    at = put_number(out, at, root.0);
    at = put(out, at, b"` in `");
    at = put(out, at, name);
    put(out, at, b"`\n")
}

/// Writes the line that names the last row, which is the root's, and the empty line behind it.
#[tactic(auto, using(crate::proofs::Buffers::put_append), unfolding(crate::specs::Text::ending, crate::specs::Buffer::put))]
pub(crate) fn write_ending(out: &mut [u8], rows: &[Row]) -> usize
    ensures { (result, out.new) ≡ put (ending rows.now) (0, out.old) }
{
    let mut at = put(out, 0, b"infer %");
    at = put_number(out, at, rows.len().saturating_sub(1));
    put(out, at, b"\n\n")
}
