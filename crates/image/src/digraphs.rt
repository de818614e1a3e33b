// The directed graphs in which the values of an image may go round.
ghost use Rattle.std.specs.Prelude.{length};
ghost use Rattle.flow.specs.Meaning.{uses};
ghost use Rattle.rows.specs.Circles.{alias_targets, leans_on};
ghost use Rattle.rows.specs.Meaning.{flow as flow_of};
ghost use Rattle.rows.proofs.Leaning.{leans_inside, targets_inside, uses_inside};
ghost use Rattle.image.specs.Held.{few_held, rows_in};

use crate::image_rows::ImageRows;
use ir::{Operands, Value};
use loops::Digraph;
use rows::{ReadRows, ValueData};

/// An alias leads to the value that it names, and nothing else leads anywhere.
#[derive(Clone, Copy, Debug)]
pub(crate) struct Aliases<'a>(pub ImageRows<'a>);

/// A value leads to the operands of its operation, an alias to those of its original.
#[derive(Clone, Copy, Debug)]
pub(crate) struct Uses<'a>(pub ImageRows<'a>);

/// A value leads to what its row names: an alias to its value, the result of an operation to the operands.
#[derive(Clone, Copy, Debug)]
pub(crate) struct Leanings<'a>(pub ImageRows<'a>);

impl Digraph for Aliases<'_> {
    ghost size = { λ g. length (rows_in g.0.bytes.now g.0.counts).values };

    ghost steps = { λ g. alias_targets (rows_in g.0.bytes.now g.0.counts) };

    ghost finite = { λ g. record { few = few_held g.0.bytes.now g.0.counts g.0.few_values; inside = targets_inside (rows_in g.0.bytes.now g.0.counts) } };

    fn num_nodes(&self) -> u32 {
        self.0.num_values()
    }

    fn targets(&self, v: Value) -> Operands {
        match self.0.value_data(v) {
            ValueData::Alias { original, .. } => Operands::Unary(original),
            _ => Operands::Nullary,
        }
    }
}

impl Digraph for Uses<'_> {
    ghost size = { λ g. length (rows_in g.0.bytes.now g.0.counts).values };

    ghost steps = { λ g. uses (flow_of (rows_in g.0.bytes.now g.0.counts)) };

    ghost finite = { λ g. record { few = few_held g.0.bytes.now g.0.counts g.0.few_values; inside = uses_inside (rows_in g.0.bytes.now g.0.counts) } };

    fn num_nodes(&self) -> u32 {
        self.0.num_values()
    }

    #[tactic(auto, using(crate::proofs::GoingRound::uses_at))]
    fn targets(&self, v: Value) -> Operands {
        self.0.original_def(v).args()
    }
}

impl Digraph for Leanings<'_> {
    ghost size = { λ g. length (rows_in g.0.bytes.now g.0.counts).values };

    ghost steps = { λ g. leans_on (rows_in g.0.bytes.now g.0.counts) };

    ghost finite = { λ g. record { few = few_held g.0.bytes.now g.0.counts g.0.few_values; inside = leans_inside (rows_in g.0.bytes.now g.0.counts) } };

    fn num_nodes(&self) -> u32 {
        self.0.num_values()
    }

    fn targets(&self, v: Value) -> Operands {
        match self.0.value_data(v) {
            ValueData::Alias { original, .. } => Operands::Unary(original),
            row => self.0.row_def(row).args(),
        }
    }
}
