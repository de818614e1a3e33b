// The harvest of one value.
ghost use Rattle.std.specs.Prelude.{◌≡◌, ◌<◌, ◌≤◌, true, false, ◌++◌, drop, length, replicate, Ok, Err};
ghost use Rattle.ir.specs.Entities.{not_live, too_short};
ghost use Rattle.ir.specs.Refusals.{because};
ghost use Rattle.ir.specs.Widths.{is_integer};
ghost use Rattle.ir.specs.declared.refusal.Cause.TheVariants.{NotInteger};
ghost use Rattle.flow.specs.Meaning.{live, width_of};
ghost use Rattle.harvest.specs.Written.{OneValue};

use crate::lent::ensure_room;
use crate::root::reaches_two;
use crate::translate::Translation;
use crate::written::{ROWS, Written};
use flow::{FlowGraph, is_live};
use ir::{Cause, Refusal, Value, ensure};
use souper::Row;
use walk::MARKS;

/// Writes the rows of one value into `rows`, if it reaches two counted operations or more, itself included.
///
/// The caller lends at least 1,024 bytes for the marks of a walk and 2,048 rows, whatever they hold. The first 1,024 bytes are zero
/// at the return, and those behind stay as they were. Rows that are not written keep what they held. A refusal changes nothing.
pub fn harvest_candidate_lhs<G: FlowGraph>(
    graph: &G,
    value: Value,
    marks: &mut [u8],
    rows: &mut [Row],
) -> Result<Option<Written>, Refusal>
    ensures missing { live (G.meaning graph.now) value.0 ≡ false → (result ≡ Err not_live) × (marks.new ≡ marks.old) × (rows.new ≡ rows.old) }
    ensures short_marks { live (G.meaning graph.now) value.0 ≡ true → length marks.old < 1024 → (result ≡ Err (too_short 1024)) × (marks.new ≡ marks.old) × (rows.new ≡ rows.old) }
    ensures short_rows { live (G.meaning graph.now) value.0 ≡ true → 1024 ≤ length marks.old → length rows.old < 2048 → (result ≡ Err (too_short 2048)) × (marks.new ≡ marks.old) × (rows.new ≡ rows.old) }
    ensures no_integer { live (G.meaning graph.now) value.0 ≡ true → 1024 ≤ length marks.old → 2048 ≤ length rows.old → is_integer (width_of (G.meaning graph.now) value.0) ≡ false → (result ≡ Err (because NotInteger)) × (marks.new ≡ marks.old) × (rows.new ≡ rows.old) }
    ensures answered { live (G.meaning graph.now) value.0 ≡ true → 1024 ≤ length marks.old → 2048 ≤ length rows.old → is_integer (width_of (G.meaning graph.now) value.0) ≡ true → OneValue (G.meaning graph.now) value rows.old rows.new result }
    ensures cleared { live (G.meaning graph.now) value.0 ≡ true → 1024 ≤ length marks.old → 2048 ≤ length rows.old → is_integer (width_of (G.meaning graph.now) value.0) ≡ true → marks.new ≡ replicate 1024 0 ++ drop 1024 marks.old }
{
    ensure(is_live(graph, value), Cause::NotLive)?;
    ensure_room(marks.len(), rows.len())?;
    ensure(graph.value_type(value).is_int(), Cause::NotInteger)?;
    Ok(harvest_lent(graph, value, marks, rows))
}

/// The same where the value is a live integer and enough is lent.
// Of less than enough nothing is answered.
fn harvest_lent<G: FlowGraph>(
    graph: &G,
    value: Value,
    marks: &mut [u8],
    rows: &mut [Row],
) -> Option<Written>
    ensures answered { live (G.meaning graph.now) value.0 ≡ true → 1024 ≤ length marks.old → 2048 ≤ length rows.old → is_integer (width_of (G.meaning graph.now) value.0) ≡ true → OneValue (G.meaning graph.now) value rows.old rows.new (Ok result) }
    ensures cleared { live (G.meaning graph.now) value.0 ≡ true → 1024 ≤ length marks.old → 2048 ≤ length rows.old → marks.new ≡ replicate 1024 0 ++ drop 1024 marks.old }
{
    let bytes = marks.first_chunk_mut()?;
    let table = rows.first_chunk_mut()?;
    harvest_integer(graph, value, bytes, table)
}

/// The same over just the memory that is needed.
fn harvest_integer<G: FlowGraph>(
    graph: &G,
    value: Value,
    marks: &mut [u8; MARKS],
    rows: &mut [Row; ROWS],
) -> Option<Written>
    ensures answered { live (G.meaning graph.now) value.0 ≡ true → is_integer (width_of (G.meaning graph.now) value.0) ≡ true → OneValue (G.meaning graph.now) value rows.old rows.new (Ok result) }
    ensures cleared { live (G.meaning graph.now) value.0 ≡ true → marks.new ≡ replicate 1024 0 }
{
    if !reaches_two(graph, value, marks) {
        *marks = [0; MARKS];
        return None;
    }
    Some(Translation { graph, value }.write(marks, rows))
}
