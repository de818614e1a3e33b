ghost use Rattle.std.specs.Prelude.{◌≡◌, false, slice_index};
ghost use Rattle.flow.specs.Meaning.{original_of};
ghost use Rattle.eval.specs.Shown.{Fitting, fitting_none};
ghost use Rattle.eval.specs.ValueAnswer.{input_fits, inputs_fit};

use crate::checks::fits;
use arith::number_at;
use flow::{FlowGraph, ValueDef, original};
use ir::Value;
use walk::Visitor;

/// The input of the original of `v`.
pub(crate) fn input_of<G: FlowGraph>(graph: &G, inputs: &[u64], v: Value) -> u64
    ensures { result ≡ slice_index inputs.now (original_of (G.meaning graph.now) v.0) }
{
    number_at(inputs, original(graph, v).0 as usize)
}

/// An input does not fit its variable.
#[derive(Clone, Copy, PartialEq, Eq, Debug)]
pub(crate) struct TooWide;

/// Checks the inputs of the variables that it is shown, and stops at the first that is too wide.
#[derive(Drop)]
pub(crate) struct InputChecker<'a, G> {
    pub graph: &'a G,
    /// By value number, the numbers of the variables' originals.
    pub inputs: &'a [u64],
}

impl<G: FlowGraph> InputChecker<'_, G> {
    /// Whether the input fits that `v` reads, if it reads one.
    fn input_fits(&self, v: Value) -> bool
        ensures { result ≡ input_fits (G.meaning self.now.graph.now) self.now.inputs.now v.0 }
    {
        match self.graph.value_def(v) {
            Ok(ValueDef::Variable) => {
                let bits = self.graph.value_type(v).bits();
                fits(bits, input_of(self.graph, self.inputs, v))
            }
            _ => true,
        }
    }
}

impl<G: FlowGraph> Visitor for InputChecker<'_, G> {
    type Stop = TooWide;

    ghost fits = { λ a shown b. Fitting (G.FlowGraph.meaning a.graph.now) a.inputs.now shown (G.FlowGraph.meaning b.graph.now) b.inputs.now };

    ghost stops = { λ a shown b stop. inputs_fit (G.FlowGraph.meaning a.graph.now) a.inputs.now shown ≡ false };

    ghost starts = { λ a. fitting_none (G.FlowGraph.meaning a.graph.now) a.inputs.now };

    fn show(&mut self, v: Value) -> Result<(), TooWide> {
        if self.input_fits(v) {
            Ok(())
        } else {
            Err(TooWide)
        }
    }
}
