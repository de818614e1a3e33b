// The rows of one value, whatever it reaches.
ghost use Rattle.std.specs.Prelude.{◌≡◌, ◌<◌, ◌≤◌, true, false, ◌++◌, drop, length, replicate, Err, MatchOption, MatchResult};
ghost use Rattle.ir.specs.Entities.{not_live, too_short};
ghost use Rattle.flow.specs.Meaning.{live};
ghost use Rattle.harvest.specs.Written.{WrittenOf};

use crate::lent::ensure_room;
use crate::translate::Translation;
use crate::written::{ROWS, Written};
use flow::{FlowGraph, is_live};
use ir::{Cause, Refusal, Value, ensure};
use souper::Row;
use walk::MARKS;

/// Writes the rows of one value into `rows`, whether or not a candidate would be harvested for it.
///
/// The caller lends at least 1,024 bytes for the marks of a walk and 2,048 rows, whatever they hold. The first 1,024 bytes are zero
/// at the return, and those behind stay as they were. Rows that are not written keep what they held. A refusal changes nothing.
pub fn translate_value<G: FlowGraph>(
    graph: &G,
    value: Value,
    marks: &mut [u8],
    rows: &mut [Row],
) -> Result<Written, Refusal>
    ensures missing { live (G.meaning graph.now) value.0 ≡ false → (result ≡ Err not_live) × (marks.new ≡ marks.old) × (rows.new ≡ rows.old) }
    ensures short_marks { live (G.meaning graph.now) value.0 ≡ true → length marks.old < 1024 → (result ≡ Err (too_short 1024)) × (marks.new ≡ marks.old) × (rows.new ≡ rows.old) }
    ensures short_rows { live (G.meaning graph.now) value.0 ≡ true → 1024 ≤ length marks.old → length rows.old < 2048 → (result ≡ Err (too_short 2048)) × (marks.new ≡ marks.old) × (rows.new ≡ rows.old) }
    ensures written { live (G.meaning graph.now) value.0 ≡ true → 1024 ≤ length marks.old → 2048 ≤ length rows.old → MatchResult result (λ w. (w.root ≡ value) × WrittenOf (G.meaning graph.now) rows.old rows.new w) (λ why. ⊥) }
    ensures cleared { live (G.meaning graph.now) value.0 ≡ true → 1024 ≤ length marks.old → 2048 ≤ length rows.old → marks.new ≡ replicate 1024 0 ++ drop 1024 marks.old }
{
    ensure(is_live(graph, value), Cause::NotLive)?;
    ensure_room(marks.len(), rows.len())?;
    translate_lent(graph, value, marks, rows).ok_or(Refusal::from(Cause::NotLive))
}

/// The same where the value is live and enough is lent.
// Of less than enough nothing is answered.
fn translate_lent<G: FlowGraph>(
    graph: &G,
    value: Value,
    marks: &mut [u8],
    rows: &mut [Row],
) -> Option<Written>
    ensures written { live (G.meaning graph.now) value.0 ≡ true → 1024 ≤ length marks.old → 2048 ≤ length rows.old → MatchOption result ⊥ (λ w. (w.root ≡ value) × WrittenOf (G.meaning graph.now) rows.old rows.new w) }
    ensures cleared { live (G.meaning graph.now) value.0 ≡ true → 1024 ≤ length marks.old → 2048 ≤ length rows.old → marks.new ≡ replicate 1024 0 ++ drop 1024 marks.old }
{
    let bytes = marks.first_chunk_mut()?;
    let table = rows.first_chunk_mut()?;
    translate_within(graph, value, bytes, table)
}

/// The same over just the memory that is needed.
fn translate_within<G: FlowGraph>(
    graph: &G,
    value: Value,
    marks: &mut [u8; MARKS],
    rows: &mut [Row; ROWS],
) -> Option<Written>
    ensures written { live (G.meaning graph.now) value.0 ≡ true → MatchOption result ⊥ (λ w. (w.root ≡ value) × WrittenOf (G.meaning graph.now) rows.old rows.new w) }
    ensures cleared { live (G.meaning graph.now) value.0 ≡ true → marks.new ≡ replicate 1024 0 }
{
    if !is_live(graph, value) {
        return None;
    }
    Some(Translation { graph, value }.write(marks, rows))
}
