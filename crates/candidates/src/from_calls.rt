ghost use Rattle.std.specs.Prelude.{◌≡◌, map, IfOk};
ghost use Rattle.rows.specs.Rows.{empty};
ghost use Rattle.calls.specs.Calls.{call_of};
ghost use Rattle.dfg.specs.Plain.{plain};
ghost use Rattle.plain.specs.Feed.{fed_all, answers_to};
ghost use Rattle.candidates.specs.Candidates.{CandidatesOf};

use building::{Built, build};
use calls::{Answer, BuildCall};
use dfg::DataFlowGraph;
use harvest::{Lhs, do_souper_harvest};
use ir::Refusal;
use std::alloc::{AllocError, Global};

/// What a list of building calls made: the graph, the answer to each call, in order, and the candidates of the graph.
#[derive(Debug, Drop)]
pub struct HarvestedCalls {
    pub graph: DataFlowGraph,
    pub answers: Vec<Result<Answer, Refusal>>,
    pub candidates: Vec<Lhs>,
}

/// Does the calls, one after another, from an empty graph, and harvests the graph that they made. Any of them may be refused.
pub fn harvest_calls(heap: Global, calls: &[BuildCall]) -> Result<HarvestedCalls, AllocError>
    ensures graph { IfOk result (λ h. plain h.graph ≡ fed_all empty (map call_of calls.now)) }
    ensures answers { IfOk result (λ h. h.answers.items ≡ answers_to empty (map call_of calls.now)) }
    ensures candidates { IfOk result (λ h. CandidatesOf (fed_all empty (map call_of calls.now)) h.candidates.items) }
{
    let Built { graph, answers } = build(heap, calls)?;
    let candidates = do_souper_harvest(heap, &graph)?;
    Ok(HarvestedCalls {
        graph,
        answers,
        candidates,
    })
}
