ghost use Rattle.std.specs.Prelude.{◌≡◌, ℕ, ◌↔◌, Ok, Err};
ghost use Rattle.flow.specs.Meaning.{is_type};
ghost use Rattle.souper.specs.Check.{are_earlier, has_width, has_width_or_zero, is_earlier, kind_fits, row_fits, broken_at, first_bad, width_check};
ghost use Rattle.souper.specs.Rows.{operand_width, row_at};
ghost use Rattle.souper.specs.Widths.{FirstToBreak, WidthsPass};

use crate::kind::Kind;
use crate::rows::{Operand, Row, RowOperands};
use ir::{Cause, Refusal};

/// Whether a row can have the width.
fn is_type(width: u8) -> bool
    ensures { result ≡ is_type width }
{
    matches!(width, 1 | 8 | 16 | 32 | 64)
}

/// The width of a row, 0 where there is no such row.
fn row_width(rows: &[Row], r: u32) -> u8
    ensures { result ≡ (row_at rows.now r).width }
{
    rows.get(r as usize).map_or(0, |row| row.width)
}

/// The width of an operand, 0 for the zero that has none.
pub fn operand_width(rows: &[Row], x: Operand) -> u8
    ensures { result ≡ operand_width rows.now x }
{
    match x {
        Operand::Row(r) => row_width(rows, r),
        Operand::Constant { width, .. } => width,
        Operand::Zero => 0,
    }
}

/// Whether an operand has the width.
fn has_width(rows: &[Row], width: u8, x: Operand) -> bool
    ensures { result ≡ has_width rows.now width x }
{
    match x {
        Operand::Row(r) => row_width(rows, r) == width,
        Operand::Constant { width: own, .. } => own == width,
        Operand::Zero => false,
    }
}

/// Whether an operand has the width, or is the zero that has none.
fn has_width_or_zero(rows: &[Row], width: u8, x: Operand) -> bool
    ensures { result ≡ has_width_or_zero rows.now width x }
{
    x == Operand::Zero || has_width(rows, width, x)
}

/// Whether an operand of row `at` is an earlier row, or a constant of a row's width.
fn is_earlier(at: usize, x: Operand) -> bool
    ensures { result ≡ is_earlier at x }
{
    match x {
        Operand::Row(r) => (r as usize) < at,
        Operand::Constant { width, .. } => is_type(width),
        Operand::Zero => true,
    }
}

/// Whether each operand of row `at` is.
fn are_earlier(at: usize, operands: RowOperands) -> bool
    ensures { result ≡ are_earlier at operands }
{
    match operands {
        RowOperands::Empty => true,
        RowOperands::One(x) => is_earlier(at, x),
        RowOperands::Two(x, y) => is_earlier(at, x) && is_earlier(at, y),
        RowOperands::Three(x, y, z) => {
            is_earlier(at, x) && is_earlier(at, y) && is_earlier(at, z)
        }
    }
}

/// Whether there are as many operands as the kind asks for, of the widths that it asks for in a row of width `width`.
fn kind_fits(rows: &[Row], width: u8, kind: Kind, operands: RowOperands) -> bool
    ensures { result ≡ kind_fits rows.now width kind operands }
{
    match (kind, operands) {
        (Kind::Variable, RowOperands::Empty) => true,
        (Kind::Unary, RowOperands::One(x)) => has_width(rows, width, x),
        (Kind::Binary, RowOperands::Two(x, y)) => {
            has_width(rows, width, x) && has_width(rows, width, y)
        }
        (Kind::Comparison, RowOperands::Two(x, y)) => {
            let own = operand_width(rows, x);
            width == 1 && has_width(rows, own, x) && has_width(rows, own, y)
        }
        (Kind::Inequality, RowOperands::Two(x, y)) => {
            let own = operand_width(rows, x);
            width == 1 && has_width(rows, own, x) && has_width_or_zero(rows, own, y)
        }
        (Kind::Choice, RowOperands::Three(x, y, z)) => {
            has_width(rows, 1, x) && has_width(rows, width, y) && has_width(rows, width, z)
        }
        (Kind::Extension, RowOperands::One(x)) => {
            let own = operand_width(rows, x);
            own < width && has_width(rows, own, x)
        }
        _ => false,
    }
}

/// Whether a row passes as row `at`.
fn row_fits(rows: &[Row], at: usize, row: Row) -> bool
    ensures { result ≡ row_fits rows.now at row }
{
    is_type(row.width)
        && are_earlier(at, row.operands)
        && kind_fits(rows, row.width, Kind::of(row.word), row.operands)
}

/// The first row that breaks a rule, if one does.
fn first_bad(rows: &[Row]) -> Option<usize>
    ensures { result ≡ first_bad rows.now 0 rows.now }
{
    for (at, row) in rows.iter().enumerate() {
        if !row_fits(rows, at, *row) {
            return Some(at);
        }
    }
    None
}

/// The refusal of rows whose first to break a rule is row `at`: it names that row, as far as 32 bits go.
fn broken_at(at: usize) -> Refusal
    ensures { result ≡ broken_at at }
{
    Refusal {
        cause: Cause::WidthCheck,
        place: u32::try_from(at).unwrap_or(u32::MAX),
    }
}

/// Souper's width check: goes through the rows in order and names the first that breaks a rule. It passes exactly the rows that each
/// keep the rules.
#[tactic(auto, using(crate::proofs::Checks::check_names))]
pub fn check_widths(rows: &[Row]) -> Result<(), Refusal>
    ensures test { result ≡ width_check rows.now }
    ensures passed { (result ≡ Ok tt) ↔ WidthsPass rows.now }
    ensures refused { (why : Refusal) → result ≡ Err why → (r : ℕ) × FirstToBreak rows.now r × (why ≡ broken_at r) }
{
    match first_bad(rows) {
        None => Ok(()),
        Some(at) => Err(broken_at(at)),
    }
}
