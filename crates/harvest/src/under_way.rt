// A harvest under way.
ghost use Rattle.std.specs.Prelude.{◌≡◌, ◌-◌, length, take};
ghost use Rattle.flow.specs.Layout.{in_block};

use crate::candidate::Candidate;
use crate::lent::ensure_room;
use crate::place::Place;
use crate::search::{Passed, find_root};
use crate::translate::Translation;
use crate::written::ROWS;
use flow::LaidOut;
use ir::Refusal;
use souper::Row;
use walk::MARKS;

/// The candidates of a graph from a place on, one after another.
///
/// Each is looked for where the one before it was found, so that no instruction is passed twice.
// Nothing compares or prints one.
#[derive(Drop)]
pub struct Harvest<'a, G: LaidOut> {
    pub graph: &'a G,
    /// The place from which on the next is looked for.
    pub from: Place,
    pub(crate) passed: Passed,
    ghost passed_so_far: { passed.index ≡ length (in_block from.block (take passed.inst (G.layout graph.now).insts)) },
    ghost before: { passed.index - from.index ≡ 0 },
}

impl<'a, G: LaidOut> Harvest<'a, G> {
    ghost use Rattle.std.specs.Prelude.{◌<◌, ◌*◌, ◌≤◌, ◌++◌, drop, replicate, Ok, Err};
    ghost use Rattle.ir.specs.Entities.{too_short};
    ghost use Rattle.harvest.specs.Candidates.{NextFrom, place_after};

    /// A harvest from a place on. The first place is that of block 0 and index 0.
    pub fn at(graph: &'a G, from: Place) -> Harvest<'a, G>
        ensures graph { result.graph.now ≡ graph.now }
        ensures from { result.from ≡ from }
    {
        Harvest {
            graph,
            from,
            passed: Passed::NOTHING,
        }
    }

    /// Writes the rows of the next candidate into `rows`, if there is one, and goes on from the place behind it.
    ///
    /// The caller lends at least 1,024 bytes for the marks of walks and 2,048 rows, whatever they hold. The first 1,024 bytes are zero
    /// at the return, and those behind stay as they were. Rows that are not written keep what they held. A refusal changes nothing.
    pub fn next(&mut self, marks: &mut [u8], rows: &mut [Row]) -> Result<Option<Candidate>, Refusal>
        ensures graph { self.new.graph.now ≡ self.old.graph.now }
        ensures short_marks { length marks.old < 1024 → (result ≡ Err (too_short 1024)) × (marks.new ≡ marks.old) × (rows.new ≡ rows.old) }
        ensures short_rows { 1024 ≤ length marks.old → length rows.old < 2048 → (result ≡ Err (too_short 2048)) × (marks.new ≡ marks.old) × (rows.new ≡ rows.old) }
        ensures next { 1024 ≤ length marks.old → 2048 ≤ length rows.old → NextFrom (G.FlowGraph.meaning self.old.graph.now) (G.layout self.old.graph.now) self.old.from rows.old rows.new result }
        ensures place { self.new.from ≡ place_after self.old.from result }
        ensures cleared { 1024 ≤ length marks.old → 2048 ≤ length rows.old → marks.new ≡ replicate 1024 0 ++ drop 1024 marks.old }
    {
        ensure_room(marks.len(), rows.len())?;
        Ok(self.next_lent(marks, rows))
    }

    /// The same where enough is lent.
    // Of less than enough nothing is answered.
    fn next_lent(&mut self, marks: &mut [u8], rows: &mut [Row]) -> Option<Candidate>
        ensures graph { self.new.graph.now ≡ self.old.graph.now }
        ensures next { 1024 ≤ length marks.old → 2048 ≤ length rows.old → NextFrom (G.FlowGraph.meaning self.old.graph.now) (G.layout self.old.graph.now) self.old.from rows.old rows.new (Ok result) }
        ensures place { self.new.from ≡ place_after self.old.from (Ok result) }
        ensures cleared { 1024 ≤ length marks.old → 2048 ≤ length rows.old → marks.new ≡ replicate 1024 0 ++ drop 1024 marks.old }
    {
        let bytes = marks.first_chunk_mut()?;
        let table = rows.first_chunk_mut::<ROWS>()?;
        self.next_within(bytes, table)
    }

    /// The same over a table that has place for two rows for each value of the graph.
    pub(crate) fn next_within(
        &mut self,
        marks: &mut [u8; MARKS],
        rows: &mut [Row],
    ) -> Option<Candidate>
        requires { 2 * length (G.FlowGraph.meaning self.old.graph.now) ≤ length rows.old }
        ensures graph { self.new.graph.now ≡ self.old.graph.now }
        ensures next { NextFrom (G.FlowGraph.meaning self.old.graph.now) (G.layout self.old.graph.now) self.old.from rows.old rows.new (Ok result) }
        ensures place { self.new.from ≡ place_after self.old.from (Ok result) }
        ensures cleared { marks.new ≡ replicate 1024 0 }
    {
        let Some(found) = find_root(self.graph, self.from, self.passed, marks) else {
            *marks = [0; MARKS];
            return None;
        };
        let translation = Translation {
            graph: self.graph,
            value: found.root,
        };
        let written = translation.write(marks, rows);
        self.from = found.next;
        self.passed = Passed {
            inst: found.inst,
            index: found.next.index,
        };
        Some(Candidate {
            written,
            next: found.next,
        })
    }
}
