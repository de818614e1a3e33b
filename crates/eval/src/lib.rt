//! The evaluators: the number of a value of a flow graph, and the number on a row.
//!
//! Start at `specs/ValueAnswer.antt` and `specs/RowAnswer.antt`, which say what each question is answered, refusals and all.
#![tactic(auto)]

ghost use Rattle.eval.specs.Theorems.{AnsweredNumbers, AnsweredRowNumbers, AnsweredTraps, AnsweredUndefined};

mod checks;
mod evaluator;
mod inputs;
mod row_numbers;
mod rows;
mod values;

pub use row_numbers::MAX_ROWS;
pub use rows::row_number;
pub use values::ir_number;

/// A number that is answered is that of the value or the row, and a trap or an undefined row that is answered is the first.
pub fn answers_stand()
    ensures numbers { AnsweredNumbers }
    ensures traps { AnsweredTraps }
    ensures row_numbers { AnsweredRowNumbers }
    ensures undefined { AnsweredUndefined }
{}
