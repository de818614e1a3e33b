ghost use Rattle.std.specs.Prelude.{◌≡◌, map, IfOk};
ghost use Rattle.rows.specs.Rows.{empty};
ghost use Rattle.calls.specs.Calls.{call_of};
ghost use Rattle.dfg.specs.Plain.{plain};
ghost use Rattle.plain.specs.Feed.{fed_all, answers_to};

use crate::one::apply;
use calls::{Answer, BuildCall};
use dfg::DataFlowGraph;
use ir::Refusal;
use std::alloc::{AllocError, Global};

/// What a list of building calls made: the graph, and the answer to each call, in order.
#[derive(Debug, Drop)]
pub struct Built {
    pub graph: DataFlowGraph,
    pub answers: Vec<Result<Answer, Refusal>>,
}

/// Does the calls, one after another, from an empty graph. A refused call leaves the graph as it was, and the next goes on.
pub fn build(heap: Global, calls: &[BuildCall]) -> Result<Built, AllocError>
    ensures graph { IfOk result (λ b. plain b.graph ≡ fed_all empty (map call_of calls.now)) }
    ensures answers { IfOk result (λ b. b.answers.items ≡ answers_to empty (map call_of calls.now)) }
{
    let mut graph = DataFlowGraph::new(heap)?;
    let mut answers = Vec::new(heap);
    let mut marks = [0; 1024];
    for call in calls {
        answers.push(apply(&mut graph, call, &mut marks))?;
    }
    Ok(Built { graph, answers })
}
