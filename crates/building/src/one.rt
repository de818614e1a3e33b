ghost use Rattle.std.specs.Prelude.{◌≡◌, length};
ghost use Rattle.calls.specs.Calls.{call_of};
ghost use Rattle.plain.specs.Feed.{fed_with, answered, answer_to};
ghost use Rattle.plain.specs.Marks.{marks_after};
ghost use Rattle.dfg.specs.Plain.{plain};

use calls::{Answer, BuildCall};
use dfg::DataFlowGraph;
use ir::Refusal;

/// Does a building call over lent marks, and answers what it made.
pub fn apply(
    graph: &mut DataFlowGraph,
    call: &BuildCall,
    marks: &mut [u8],
) -> Result<Answer, Refusal>
    ensures after { plain graph.new ≡ fed_with (length marks.old) (plain graph.old) (call_of call.now) }
    ensures value { result ≡ answered (length marks.old) (plain graph.old) (call_of call.now) (answer_to (plain graph.old) (call_of call.now)) }
    ensures marks { marks.new ≡ marks_after (plain graph.old) (call_of call.now) marks.old }
{
    // Calls are data, as a script gives them: cases, and no closures.
    match call {
        BuildCall::MakeBlock => graph.make_block().map(Answer::Block),
        BuildCall::AppendBlockParam(block, ty) => {
            graph.append_block_param(*block, *ty).map(Answer::Value)
        }
        BuildCall::AppendInst(new) => graph.append_inst(new).map(Answer::Inst),
        BuildCall::ClearResults(inst) => graph.clear_results(*inst).map(|()| Answer::Done),
        BuildCall::ChangeToAlias(dest, src) => {
            graph
                .change_to_alias(*dest, *src, marks)
                .map(|()| Answer::Done)
        }
        BuildCall::ResolveAllAliases => {
            graph.resolve_all_aliases();
            Ok(Answer::Done)
        }
    }
}
