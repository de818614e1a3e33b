// The visitor that translates.
ghost use Rattle.std.specs.Prelude.{◌≡◌, ◌+◌, ◌<◌, ◌≤◌, ◌↔◌, ◌⊎◌, IsTrue, length, refl};
ghost use Rattle.harvest.specs.Counting.{CountedMore, counted_none};
ghost use Rattle.harvest.specs.Translated.{Follows, follows_none, NeverFull};

use crate::counter::counted_on;
use crate::value_rows::Placed;
use crate::written::ROWS;
use flow::FlowGraph;
use ir::Value;
use souper::Row;
use walk::{MARKS, Visitor};

/// There is no room for the rows of one value more.
#[derive(Clone, Copy, PartialEq, Eq, Debug)]
pub(crate) struct Full;

/// Writes the rows of the values that it is shown into a lent table, and counts those that an operation with a translation defines.
// Nothing compares or prints a translator.
#[derive(Drop)]
pub(crate) struct Translator<'a, 'r, G> {
    pub graph: &'a G,
    pub rows: &'r mut [Row],
    /// By value number, the row of each value shown that has one.
    pub places: [u32; MARKS],
    /// How many rows were written.
    pub len: u32,
    /// How many of the values shown are counted.
    pub counted: u32,
}

impl<G: FlowGraph> Visitor for Translator<'_, '_, G> {
    type Stop = Full;

    ghost fits = { λ a shown b. (b.rows.ghost_name ≡ a.rows.ghost_name) × Follows (G.meaning a.graph.now) a.rows.now a.len shown (G.meaning b.graph.now) b.rows.now b.places b.len × CountedMore (G.meaning a.graph.now) a.counted shown (G.meaning b.graph.now) b.counted };

    ghost stops = { λ a shown b stop. NeverFull (G.meaning a.graph.now) a.rows.now a.len shown };

    ghost starts = { λ a. (refl, follows_none (G.meaning a.graph.now) a.rows.now a.places a.len, counted_none (G.meaning a.graph.now) a.counted) };

    fn show(&mut self, v: Value) -> Result<(), Full> {
        if self.is_full(v) {
            return Err(Full);
        }
        let placed = Placed {
            graph: self.graph,
            places: &self.places,
        };
        let (end, counts) = placed.put_value(v, self.len, self.rows);
        self.counted = counted_on(self.counted, counts);
        // its own row is the last of its rows; of a constant, which has none, no place is ever read
        self.places[v.0 as usize] = end.saturating_sub(1);
        self.len = end;
        Ok(())
    }
}

impl<G> Translator<'_, '_, G> {
    /// Whether there may be no place for `v` or for two rows more.
    fn is_full(&self, v: Value) -> bool
        ensures { IsTrue result ↔ (1024 ≤ v.0) ⊎ ((2046 < self.now.len) ⊎ (length self.now.rows.now < self.now.len + 2)) }
    {
        let end = self.len as usize + 2;
        v.0 as usize >= MARKS || end > ROWS || end > self.rows.len()
    }
}
