//! Souper's rows: what they compute, the translation of a walk into rows, its soundness, and the width check.
//!
//! Start at `specs/Translation.antt`, which says which rows a walk becomes, and at `specs/Soundness.antt`, which says that they mean
//! what the values mean.
//!
//! Proofs: the number on a value's row is the value's (`Sound`, over `Agreement` word by word and `Places`), the rows of a walk (`WalkRows`,
//! `Grows`), the width check (`Checks`, `Fits`, `Live`), and numbers on rows (`RowUnfolds`, `RowRange`).
#![tactic(auto)]

ghost use Rattle.souper.specs.Rows.{RowUnfolds};
ghost use Rattle.souper.specs.Soundness.{TranslationSound, DefinedRowsSound, TranslationFits, TranslationGrows, RowNumbersInRange};
ghost use Rattle.souper.specs.WalkRows.{TranslationIsRowsOfWalk};

pub mod check;
pub mod form;
pub mod kind;
pub mod rows;

pub use check::check_widths;
pub use form::Form;
pub use kind::Kind;
pub use rows::{Operand, Row, RowOperands};

/// The number on a row follows from the numbers on the rows that it names, and fits the row's width where the rows pass the width check
/// and the variables' inputs fit.
pub fn row_numbers_stand()
    ensures unfolds { RowUnfolds }
    ensures in_range { RowNumbersInRange }
{}

/// The number on a value's row is the value's number, where that row is defined; and it is defined where no row up to it is not.
/// The rows of a walk are one for each value but constants, a variable exactly where there is no translation, and the named
/// helpers; they keep the rules of the width check. One value more in a walk adds its rows behind those of the walk.
pub fn translation_stands()
    ensures sound { TranslationSound }
    ensures defined { DefinedRowsSound }
    ensures fits { TranslationFits }
    ensures rows { TranslationIsRowsOfWalk }
    ensures grows { TranslationGrows }
{}
