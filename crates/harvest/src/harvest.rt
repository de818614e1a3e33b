// The whole harvest of a graph.
ghost use Rattle.std.specs.Prelude.{◌≡◌, take, vec_items, IfOk};
ghost use Rattle.harvest.specs.Harvest.{Harvested};

use crate::candidate::Candidate;
use crate::place::Place;
use crate::under_way::Harvest;
use flow::LaidOut;
use ir::Value;
use souper::Row;
use std::alloc::{AllocError, Global};
use tabled::Tabled;
use walk::MARKS;

/// A candidate: the left-hand side of its root.
#[derive(PartialEq, Eq, Debug, Drop)]
pub struct Lhs {
    pub root: Value,
    pub rows: Vec<Row>,
    /// How many counted operations the root reaches.
    pub counted: u32,
    /// How many steps the walk of the root took.
    pub steps: u32,
    /// The place behind the root's instruction.
    pub next: Place,
}

/// A candidate with a copy of the rows that were written into a table.
fn copied(heap: Global, candidate: Candidate, table: &[Row]) -> Result<Lhs, AllocError>
    ensures root { IfOk result (λ lhs. lhs.root ≡ candidate.written.root) }
    ensures rows { IfOk result (λ lhs. vec_items lhs.rows ≡ take candidate.written.rows table.now) }
    ensures counted { IfOk result (λ lhs. lhs.counted ≡ candidate.written.counted) }
    ensures steps { IfOk result (λ lhs. lhs.steps ≡ candidate.written.steps) }
    ensures next { IfOk result (λ lhs. lhs.next ≡ candidate.next) }
{
    let written = candidate.written;
    let rows = table
        .iter()
        .copied()
        .take(written.rows as usize)
        .collect(heap)?;
    Ok(Lhs {
        root: written.root,
        rows,
        counted: written.counted,
        steps: written.steps,
        next: candidate.next,
    })
}

/// The candidates of a graph, in layout order.
///
/// It asks for the next from the start of the layout, and then from each place that was answered, until there is none.
fn harvest_all<G: LaidOut>(heap: Global, graph: &G) -> Result<Vec<Lhs>, AllocError>
    ensures { IfOk result (λ all. Harvested (G.FlowGraph.meaning graph.now) (G.layout graph.now) all.items) }
{
    let mut marks = [0; MARKS];
    // A walk shows each value once, and a value has two rows at most.
    let room = 2 * graph.num_values() as usize;
    let mut table = vec![in heap; Row::BLANK; room]?;
    let rows = table.as_mut_slice();
    let mut all = Vec::new(heap);
    let mut harvest = Harvest::at(graph, Place { block: 0, index: 0 });
    while let Some(candidate) = harvest.next_within(&mut marks, rows) {
        all.push(copied(heap, candidate, rows)?)?;
    }
    Ok(all)
}

/// The candidates of a graph, in layout order: one after another, from the start of the layout until there is none.
pub fn do_souper_harvest<G: LaidOut>(heap: Global, graph: &G) -> Result<Vec<Lhs>, AllocError>
    ensures { IfOk result (λ all. Harvested (G.FlowGraph.meaning graph.now) (G.layout graph.now) all.items) }
{
    // The same is asked of a value for every root that reaches it.
    let tabled = Tabled::of(heap, graph)?;
    harvest_all(heap, &tabled)
}
