// The rows of one value.
//
// A row is large. What follows is inlined, so that a row is put together in the table itself, and copied nowhere: most of the time of a harvest
// goes here.
ghost use Rattle.std.specs.Prelude.{◌≡◌, ◌+◌, ◌^◌, ◌<◌, ◌≤◌, length, map, slice_index};
ghost use Rattle.ir.specs.Entities.{values};
ghost use Rattle.flow.specs.Meaning.{width_of};
ghost use Rattle.souper.specs.Counted.{is_counted};
ghost use Rattle.souper.specs.Rows.{given};
ghost use Rattle.souper.specs.Translation.{def_form, form_rows, select_row, select_rows, shape, shape_of, shape_rows, word_row};
ghost use Rattle.harvest.specs.Placed.{placed_operand, put};

use crate::forms::form_of;
use flow::{FlowGraph, ValueDef, value_definition};
use ir::{Operands, Value, Word};
use souper::{Form, Operand, Row, RowOperands};

/// A graph with the rows that its values have in a table.
#[derive(Drop)]
pub(crate) struct Placed<'a, G> {
    pub graph: &'a G,
    /// By value number.
    pub places: &'a [u32],
}

impl<G: FlowGraph> Placed<'_, G> {
    /// A value as an operand: a constant itself, anything else by its row.
    #[inline(always)]
    fn operand(&self, v: Value) -> Operand
        ensures { result ≡ placed_operand (G.meaning self.now.graph.now) self.now.places.now v.0 }
    {
        match value_definition(self.graph, v) {
            ValueDef::Constant(imm) => Operand::Constant {
                width: self.graph.value_type(v).bits(),
                imm,
            },
            ValueDef::Operation { .. } | ValueDef::Variable | ValueDef::Deleted => {
                Operand::Row(self.places.get(v.0 as usize).copied().unwrap_or(0))
            }
        }
    }

    /// The operands of an operation as those of a row.
    #[inline(always)]
    fn operands(&self, args: Operands) -> RowOperands
        ensures { result ≡ given (map (placed_operand (G.meaning self.now.graph.now) self.now.places.now) (values args)) }
    {
        match args {
            Operands::Nullary => RowOperands::Empty,
            Operands::Unary(a) => RowOperands::One(self.operand(a)),
            Operands::Binary(a, b) => RowOperands::Two(self.operand(a), self.operand(b)),
            Operands::Ternary(a, b, c) => {
                RowOperands::Three(self.operand(a), self.operand(b), self.operand(c))
            }
        }
    }

    /// A word over the operands of an operation.
    #[inline(always)]
    fn word_row(&self, width: u8, word: Word, args: Operands) -> Row
        ensures { result ≡ word_row (placed_operand (G.meaning self.now.graph.now) self.now.places.now) width word (values args) }
    {
        Row {
            width,
            word,
            operands: self.operands(args),
        }
    }

    /// Puts the rows of a form over the operands of an operation into `rows`, from the row `start` on, and answers where they end.
    #[inline(always)]
    fn put_form(&self, form: Form, args: Operands, width: u8, start: u32, rows: &mut [Row]) -> u32
        requires room { start + 2 ≤ length rows.old }
        requires small { start + 2 < 2 ^ 32 }
        ensures put { rows.new ≡ put rows.old start (form_rows (placed_operand (G.meaning self.now.graph.now) self.now.places.now) width start form (values args)) }
        ensures end { result ≡ start + length (form_rows (placed_operand (G.meaning self.now.graph.now) self.now.places.now) width start form (values args)) }
    {
        let at = start as usize;
        let (a, b, c) = three(args);
        match form {
            Form::Untranslated => {
                rows[at] = Row {
                    width,
                    word: Word::Var,
                    operands: RowOperands::Empty,
                };
                start + 1
            }
            Form::Plain(word) => {
                rows[at] = self.word_row(width, word, args);
                start + 1
            }
            Form::Inverted => {
                rows[at] = Row {
                    width,
                    word: Word::Xor,
                    operands: RowOperands::Two(
                        self.operand(a),
                        Operand::Constant { width, imm: -1 },
                    ),
                };
                start + 1
            }
            Form::Selected => {
                let (x, y) = (self.operand(b), self.operand(c));
                put_select(width, start, self.operand(a), x, y, rows)
            }
            Form::Compared(word) => {
                rows[at] = self.word_row(1, word, args);
                rows[at + 1] = Row {
                    width,
                    word: Word::Zext,
                    operands: RowOperands::One(Operand::Row(start)),
                };
                start + 2
            }
        }
    }

    /// Puts the rows of what `def` defines into `rows`, by its form, from the row `start` on, and answers where they end.
    #[inline(always)]
    fn put_def(&self, def: ValueDef, form: Form, width: u8, start: u32, rows: &mut [Row]) -> u32
        requires room { start + 2 ≤ length rows.old }
        requires small { start + 2 < 2 ^ 32 }
        ensures put { form ≡ def_form (G.meaning self.now.graph.now) def → rows.new ≡ put rows.old start (shape_rows (placed_operand (G.meaning self.now.graph.now) self.now.places.now) width start (shape_of (G.meaning self.now.graph.now) def)) }
        ensures end { form ≡ def_form (G.meaning self.now.graph.now) def → result ≡ start + length (shape_rows (placed_operand (G.meaning self.now.graph.now) self.now.places.now) width start (shape_of (G.meaning self.now.graph.now) def)) }
    {
        match def {
            ValueDef::Constant(_) => start,
            ValueDef::Operation { args, .. } => self.put_form(form, args, width, start, rows),
            ValueDef::Variable | ValueDef::Deleted => {
                self.put_form(form, Operands::Nullary, width, start, rows)
            }
        }
    }

    /// Puts the rows of the value `v` into `rows`, from the row `start` on, where the table has the rows of what it uses; answers where
    /// they end, and whether the value is counted.
    #[inline(always)]
    pub(crate) fn put_value(&self, v: Value, start: u32, rows: &mut [Row]) -> (u32, bool)
        requires room { start + 2 ≤ length rows.old }
        requires small { start + 2 < 2 ^ 32 }
        ensures put { rows.new ≡ put rows.old start (shape_rows (placed_operand (G.meaning self.now.graph.now) self.now.places.now) (width_of (G.meaning self.now.graph.now) v.0) start (shape (G.meaning self.now.graph.now) v.0)) }
        ensures end { result.0 ≡ start + length (shape_rows (placed_operand (G.meaning self.now.graph.now) self.now.places.now) (width_of (G.meaning self.now.graph.now) v.0) start (shape (G.meaning self.now.graph.now) v.0)) }
        ensures counts { result.1 ≡ is_counted (shape (G.meaning self.now.graph.now) v.0) }
    {
        let def = value_definition(self.graph, v);
        let form = form_of(self.graph, def);
        let width = self.graph.value_type(v).bits();
        let end = self.put_def(def, form, width, start, rows);
        (end, form.is_translated())
    }
}

/// The three operands of a select, value 0 in the place of one that is not there.
#[inline(always)]
fn three(args: Operands) -> (Value, Value, Value)
    ensures first { result.0.0 ≡ slice_index (values args) 0 }
    ensures second { result.1.0 ≡ slice_index (values args) 1 }
    ensures third { result.2.0 ≡ slice_index (values args) 2 }
{
    let none = Value(0);
    match args {
        Operands::Nullary => (none, none, none),
        Operands::Unary(a) => (a, none, none),
        Operands::Binary(a, b) => (a, b, none),
        Operands::Ternary(a, b, c) => (a, b, c),
    }
}

/// A select.
#[inline(always)]
fn select_row(width: u8, condition: Operand, x: Operand, y: Operand) -> Row
    ensures { result ≡ select_row width condition x y }
{
    Row {
        width,
        word: Word::Select,
        operands: RowOperands::Three(condition, x, y),
    }
}

/// Puts the rows of a select into `rows`, from the row `start` on, and answers where they end: over a row there is a helper, over a
/// constant none.
#[inline(always)]
fn put_select(
    width: u8,
    start: u32,
    condition: Operand,
    x: Operand,
    y: Operand,
    rows: &mut [Row],
) -> u32
    requires room { start + 2 ≤ length rows.old }
    requires small { start + 2 < 2 ^ 32 }
    ensures put { rows.new ≡ put rows.old start (select_rows width start condition x y) }
    ensures end { result ≡ start + length (select_rows width start condition x y) }
{
    let at = start as usize;
    match condition {
        Operand::Row(_) => {
            rows[at] = Row {
                width: 1,
                word: Word::Ne,
                operands: RowOperands::Two(condition, Operand::Zero),
            };
            rows[at + 1] = select_row(width, Operand::Row(start), x, y);
            start + 2
        }
        Operand::Constant { imm, .. } => {
            let chosen = Operand::Constant {
                width: 1,
                imm: i64::from(imm != 0),
            };
            rows[at] = select_row(width, chosen, x, y);
            start + 1
        }
        Operand::Zero => {
            rows[at] = select_row(width, Operand::Constant { width: 1, imm: 0 }, x, y);
            start + 1
        }
    }
}
