// The visitor that counts operations.
ghost use Rattle.std.specs.Prelude.{◌≡◌, ◌+◌, ◌^◌, ◌<◌};
ghost use Rattle.ir.specs.Bitvectors.{truth};
ghost use Rattle.harvest.specs.Counting.{CountedMore, counted_none};

use crate::forms::is_counted;
use flow::FlowGraph;
use ir::Value;
use std::convert::Infallible;
use walk::Visitor;

/// Counts the values it is shown that an operation with a translation defines.
// Nothing compares or prints a counter.
#[derive(Drop)]
pub(crate) struct OperationCounter<'a, G> {
    pub graph: &'a G,
    pub count: u32,
}

impl<G: FlowGraph> Visitor for OperationCounter<'_, G> {
    type Stop = Infallible;

    ghost fits = { λ a shown b. CountedMore (G.meaning a.graph.now) a.count shown (G.meaning b.graph.now) b.count };

    ghost stops = { λ a shown b stop. ⊥ };

    ghost starts = { λ a. counted_none (G.meaning a.graph.now) a.count };

    fn show(&mut self, v: Value) -> Result<(), Infallible> {
        self.count = counted_on(self.count, is_counted(self.graph, v));
        Ok(())
    }
}

/// A count with one more where one more is counted.
// It stops at the last number of 32 bits, which no walk comes to.
pub(crate) fn counted_on(count: u32, counts: bool) -> u32
    ensures { count + truth counts < 2 ^ 32 → result ≡ count + truth counts }
{
    count.saturating_add(u32::from(counts))
}
