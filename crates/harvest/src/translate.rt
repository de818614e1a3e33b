// The writing of a value's rows.
ghost use Rattle.std.specs.Prelude.{◌≡◌, true};
ghost use Rattle.flow.specs.Meaning.{live};

use crate::translator::Translator;
use crate::written::Written;
use flow::FlowGraph;
use ir::Value;
use souper::Row;
use walk::{MARKS, post_order_dfs};

/// A live value of a graph, for which rows are to be written.
// Nothing compares or prints one.
#[derive(Drop)]
pub(crate) struct Translation<'a, G: FlowGraph> {
    pub graph: &'a G,
    pub value: Value,
    ghost alive: { live (G.meaning graph.now) value.0 ≡ true },
}

impl<G: FlowGraph> Translation<'_, G> {
    ghost use Rattle.std.specs.Prelude.{◌*◌, ◌≤◌, length, replicate};
    ghost use Rattle.harvest.specs.Written.{WrittenOf};

    /// Writes the rows into a table that has place for two rows for each value of the graph.
    pub(crate) fn write(&self, marks: &mut [u8; MARKS], rows: &mut [Row]) -> Written
        requires { 2 * length (G.meaning self.now.graph.now) ≤ length rows.old }
        ensures root { result.root ≡ self.now.value }
        ensures written { WrittenOf (G.meaning self.now.graph.now) rows.old rows.new result }
        ensures marks { marks.new ≡ replicate 1024 0 }
    {
        let mut translator = Translator {
            graph: self.graph,
            rows,
            places: [0; MARKS],
            len: 0,
            counted: 0,
        };
        let Ok(steps) = post_order_dfs(self.graph, self.value, marks, &mut translator) else {
            unreachable!()
        };
        Written {
            root: self.value,
            rows: translator.len,
            counted: translator.counted,
            steps,
        }
    }
}
