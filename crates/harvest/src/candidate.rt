// The next candidate.
ghost use Rattle.std.specs.Prelude.{◌≡◌, ◌<◌, ◌≤◌, ◌++◌, drop, length, replicate, Err};
ghost use Rattle.ir.specs.Entities.{too_short};
ghost use Rattle.harvest.specs.Candidates.{NextFrom};

use crate::place::Place;
use crate::under_way::Harvest;
use crate::written::Written;
use flow::LaidOut;
use ir::Refusal;
use souper::Row;

/// A candidate that was written, and the place behind its root's instruction.
#[derive(Clone, Copy, PartialEq, Eq, Debug)]
pub struct Candidate {
    pub written: Written,
    pub next: Place,
}

/// Writes the rows of the next candidate from a place on into `rows`, if there is one.
///
/// The caller lends at least 1,024 bytes for the marks of walks and 2,048 rows, whatever they hold. The first 1,024 bytes are zero
/// at the return, and those behind stay as they were. Rows that are not written keep what they held. A refusal changes nothing.
pub fn next_candidate<G: LaidOut>(
    graph: &G,
    from: Place,
    marks: &mut [u8],
    rows: &mut [Row],
) -> Result<Option<Candidate>, Refusal>
    ensures short_marks { length marks.old < 1024 → (result ≡ Err (too_short 1024)) × (marks.new ≡ marks.old) × (rows.new ≡ rows.old) }
    ensures short_rows { 1024 ≤ length marks.old → length rows.old < 2048 → (result ≡ Err (too_short 2048)) × (marks.new ≡ marks.old) × (rows.new ≡ rows.old) }
    ensures next { 1024 ≤ length marks.old → 2048 ≤ length rows.old → NextFrom (G.FlowGraph.meaning graph.now) (G.layout graph.now) from rows.old rows.new result }
    ensures cleared { 1024 ≤ length marks.old → 2048 ≤ length rows.old → marks.new ≡ replicate 1024 0 ++ drop 1024 marks.old }
{
    Harvest::at(graph, from).next(marks, rows)
}
