ghost use Rattle.std.specs.Prelude.{◌≡◌, ◌<◌, find, is_none, length};
ghost use Rattle.std.specs.List.{range_with_len};
ghost use Rattle.ir.specs.Refusals.{answer_unless};
ghost use Rattle.souper.specs.Widths.{WidthsPass};
ghost use Rattle.eval.specs.Known.{perhaps};
ghost use Rattle.eval.specs.RowAnswer.{number_of_defined, row_answer, row_inputs_fit, row_input_fits, unasked_row, undefined};

use crate::checks::fits;
use crate::row_numbers::{MAX_ROWS, number_on, numbers_on};
use ir::{Cause, Refusal, ensure, ensure_length};
use souper::{Kind, Row, check_widths};

/// Whether the input fits that a row reads, if it reads one.
fn row_input_fits(row: Row, input: u64) -> bool
    ensures { result ≡ row_input_fits row input }
{
    Kind::of(row.word) != Kind::Variable || fits(row.width, input)
}

/// Whether each input fits that the first `count` rows read.
fn row_inputs_fit(rows: &[Row], count: usize, inputs: &[u64]) -> bool
    ensures { result ≡ row_inputs_fit rows.now inputs.now count }
{
    rows.iter()
        .take(count)
        .zip(inputs)
        .all(|(row, input)| row_input_fits(*row, *input))
}

/// The first of the first `count` rows that is undefined.
fn first_undefined(numbers: &[Option<u64>], count: u32) -> Option<u32>
    ensures { result ≡ find (λ k. is_none (perhaps numbers.now k)) (range_with_len 0 count) }
{
    (0..count).find(|r| number_on(numbers, *r).is_none())
}

/// What can be said before rows that pass the width check are worked out: whether there are such a row and inputs enough that fit.
fn check(rows: &[Row], row: u32, inputs: &[u64]) -> Result<(), Refusal>
    ensures { result ≡ answer_unless (unasked_row rows.now inputs.now row) tt }
{
    let last = row as usize;
    ensure(last < rows.len() && last < MAX_ROWS, Cause::NotLive)?;
    ensure_length(inputs.len(), rows.len())?;
    ensure(row_inputs_fit(rows, last + 1, inputs), Cause::InputTooWide)?;
    Ok(())
}

/// The number on a row, or the first of the rows up to it that is undefined.
fn work_out(rows: &[Row], row: u32, inputs: &[u64]) -> Result<u64, Refusal>
    requires pass { WidthsPass rows.now }
    requires there { row < length rows.now }
    requires few { row < 2048 }
    ensures { result ≡ answer_unless (undefined rows.now inputs.now row) (number_of_defined rows.now inputs.now row) }
{
    let count = row + 1;
    let numbers = numbers_on(rows, count as usize, inputs);
    match first_undefined(&numbers, count) {
        Some(place) => Err(Refusal {
            cause: Cause::Undefined,
            place,
        }),
        None => Ok(number_on(&numbers, row).unwrap_or(0)),
    }
}

/// The number on row `row`, where `inputs` has by row the numbers that variables hold.
///
/// Refused, in this order: rows that fail the width check, at the first that does, a row that there is not (rows are numbered from
/// 0 to 2,047), inputs for fewer rows than there are, an input that is read up to the row and does not fit its variable, and an
/// undefined row, at the first of those up to the row.
pub fn row_number(rows: &[Row], row: u32, inputs: &[u64]) -> Result<u64, Refusal>
    ensures { result ≡ row_answer rows.now inputs.now row }
{
    check_widths(rows)?;
    check(rows, row, inputs)?;
    work_out(rows, row, inputs)
}
