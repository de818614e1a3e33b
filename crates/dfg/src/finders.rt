// The visitors that look for what a new alias would make a loop of.
ghost use Rattle.std.specs.Prelude.{◌≡◌, true, false, ◌||◌, find, map, slice_index_or, slice_set};
ghost use Rattle.std.specs.List.{list_any, range_with_len};
ghost use Rattle.ir.specs.Entities.{value, values};
ghost use Rattle.flow.specs.Meaning.{uses};
ghost use Rattle.rows.specs.Meaning.{flow as flow_of};
ghost use Rattle.dfg.specs.Plain.{plain};
ghost use Rattle.plain.specs.Loops.{through, any_through};
ghost use Rattle.dfg.specs.Finders.{NoneThrough, none_yet, Marked, unmarked, marked_but};

use crate::alias_loops::NewAlias;
use flow::value_args;
use ir::{Operands, Value};
use std::convert::Infallible;
use walk::{MARKS, Visitor};

/// A value was found whose aliases lead through the destination.
#[derive(Clone, Copy, PartialEq, Eq, Debug)]
pub struct Found;

/// Looks for a value whose aliases lead through the destination, and stops at the first.
#[derive(Debug, Drop)]
pub struct AliasFinder<'a> {
    pub alias: NewAlias<'a>,
}

impl Visitor for AliasFinder<'_> {
    type Stop = Found;

    ghost fits = { λ a shown b. NoneThrough a.alias shown b.alias };

    ghost stops = { λ a shown b stop. any_through (plain a.alias.graph.now).values a.alias.dest.0 shown ≡ true };

    ghost starts = { λ a. none_yet a.alias };

    fn show(&mut self, v: Value) -> Result<(), Found> {
        if self.alias.leads_through(v) {
            return Err(Found);
        }
        Ok(())
    }
}

// Functions of a slice: their definitions speak of a list, and a struct would put a field's name into each of them.

/// Whether a value is marked, where marks go by value number.
fn is_marked(marked: &[bool], v: Value) -> bool
    ensures { result ≡ slice_index_or marked.now v.0 false }
{
    marked.get(v.0 as usize).copied().unwrap_or(false)
}

/// Marks a value or not, if there is a place for it.
fn mark(marked: &mut [bool], v: Value, reaches: bool)
    ensures { marked.new ≡ slice_set marked.old v.0 reaches }
{
    // By its index: after `get_mut` of a slice a proof knows nothing of the elements.
    let i = v.0 as usize;
    if i < marked.len() {
        marked[i] = reaches;
    }
}

/// The lowest of the first `count` values that is marked and is not `root`.
pub(crate) fn lowest_marked(marked: &[bool], root: Value, count: u32) -> Option<Value>
    ensures { result ≡ find (λ v. marked_but marked.now root.0 v.0) (map value (range_with_len 0 count)) }
{
    (0..count)
        .map(Value)
        .find(|v| *v != root && is_marked(marked, *v))
}

/// Whether one of the operands is marked.
fn any_marked(marked: &[bool], args: Operands) -> bool
    ensures { result ≡ list_any (λ u. slice_index_or marked.now u false) (values args) }
{
    args.iter().any(|a| is_marked(marked, a))
}

/// Marks each value that it is shown and that reaches a value whose aliases lead through the destination.
///
/// A walk shows a value after what it uses, so a value reaches one if its own aliases lead through the destination or if one
/// of its operands is marked.
#[derive(Debug, Drop)]
pub struct LoopMarker<'a> {
    pub alias: NewAlias<'a>,
    /// By value number.
    // An array of fixed length: a building call allocates nothing.
    pub marked: [bool; MARKS],
}

impl LoopMarker<'_> {
    /// Whether a value whose operands were shown reaches a value whose aliases lead through the destination.
    fn reaches(&self, v: Value) -> bool
        ensures { result ≡ (through self.now.alias.graph.now.tables.values.items self.now.alias.dest.0 v.0 || list_any (λ u. slice_index_or self.now.marked u false) (uses (flow_of (plain self.now.alias.graph.now)) v.0)) }
    {
        let args = value_args(self.alias.graph, v);
        self.alias.leads_through(v) || any_marked(&self.marked, args)
    }
}

impl Visitor for LoopMarker<'_> {
    type Stop = Infallible;

    ghost fits = { λ a shown b. Marked a.alias a.marked shown b.alias b.marked };

    ghost stops = { λ a shown b stop. ⊥ };

    ghost starts = { λ a. unmarked a.alias a.marked };

    fn show(&mut self, v: Value) -> Result<(), Infallible> {
        let reaches = self.reaches(v);
        mark(&mut self.marked, v, reaches);
        Ok(())
    }
}
