// Whether a new alias would make a loop.
ghost use Rattle.std.specs.Prelude.{◌≡◌, true, replicate};
ghost use Rattle.ir.specs.Refusals.{answer_unless};
ghost use Rattle.flow.specs.Meaning.{live};
ghost use Rattle.flow.specs.Walk.{walk};
ghost use Rattle.rows.specs.Meaning.{flow as flow_of};
ghost use Rattle.dfg.specs.Plain.{plain};
ghost use Rattle.plain.specs.Loops.{through, reaches_through, lowest_in_loop, loop_refusal};

use crate::dfg::DataFlowGraph;
use crate::finders::{AliasFinder, LoopMarker, lowest_marked};
use flow::FlowGraph;
use ir::{Cause, Refusal, Value};
use walk::{MARKS, post_order_dfs};

/// A new alias to be judged: `dest`, as another name for a live `original`.
#[derive(Clone, Copy, Debug)]
pub struct NewAlias<'a> {
    pub graph: &'a DataFlowGraph,
    pub dest: Value,
    pub original: Value,
    ghost alive: { live (flow_of (plain graph.now)) original.0 ≡ true },
}

impl NewAlias<'_> {
    ghost use Rattle.dfg.specs.Finders.{MarksOf};

    /// Whether a value's aliases lead through `dest`.
    pub(crate) fn leads_through(&self, v: Value) -> bool
        ensures { result ≡ through self.now.graph.now.tables.values.items self.now.dest.0 v.0 }
    {
        self.graph.tables.leads_through(v, self.dest)
    }

    /// Whether the original reaches a value whose aliases lead through `dest`.
    fn makes_loop(&self, marks: &mut [u8; MARKS]) -> bool
        ensures found { result ≡ reaches_through (plain self.now.graph.now) self.now.dest.0 self.now.original.0 }
        ensures marks { marks.new ≡ replicate 1024 0 }
    {
        let mut finder = AliasFinder { alias: *self };
        post_order_dfs(self.graph, self.original, marks, &mut finder).is_err()
    }

    /// By value number, whether the original reaches the value and the value reaches one whose aliases lead through `dest`.
    fn mark_reaching(&self, marks: &mut [u8; MARKS]) -> [bool; MARKS]
        ensures marked { MarksOf (plain self.now.graph.now) self.now.dest.0 (walk (flow_of (plain self.now.graph.now)) self.now.original.0) result }
        ensures marks { marks.new ≡ replicate 1024 0 }
    {
        let mut marker = LoopMarker {
            alias: *self,
            marked: [false; MARKS],
        };
        let Ok(_) = post_order_dfs(self.graph, self.original, marks, &mut marker) else {
            unreachable!()
        };
        marker.marked
    }

    /// The lowest value that would be in a loop, or the one behind the last.
    // It is asked only where there is one, so an option would need an arm that cannot be reached.
    fn lowest_in_loop(&self, marks: &mut [u8; MARKS]) -> Value
        ensures lowest { result.0 ≡ lowest_in_loop (plain self.now.graph.now) self.now.dest.0 self.now.original.0 }
        ensures marks { marks.new ≡ replicate 1024 0 }
    {
        let marked = self.mark_reaching(marks);
        let count = self.graph.num_values();
        lowest_marked(&marked, self.original, count).unwrap_or(Value(count))
    }

    /// Refuses the alias if some value would be in a loop.
    pub(crate) fn check_loops(&self, marks: &mut [u8; MARKS]) -> Result<(), Refusal>
        ensures answer { result ≡ answer_unless (loop_refusal (plain self.now.graph.now) self.now.dest.0 self.now.original.0) tt }
        ensures marks { marks.new ≡ replicate 1024 0 }
    {
        if !self.makes_loop(marks) {
            return Ok(());
        }
        let lowest = self.lowest_in_loop(marks);
        Err(Refusal {
            cause: Cause::Loop,
            place: lowest.0,
        })
    }
}
