ghost use Rattle.std.specs.Prelude.{◌≡◌, ◌≤◌, ◌++◌, true, drop, length, replicate};
ghost use Rattle.ir.specs.Refusals.{answer_unless};
ghost use Rattle.flow.specs.Meaning.{live};
ghost use Rattle.eval.specs.ValueAnswer.{unasked, too_wide, trapped, number_of_untrapped, value_answer, refusal_of};

use crate::evaluator::Evaluator;
use crate::inputs::InputChecker;
use arith::number_at;
use flow::{FlowGraph, is_live};
use ir::{Cause, Refusal, Value, ensure, ensure_length};
use walk::{MARKS, WalkError, post_order_dfs};

/// What can be said before a walk: whether there are such a value, room and inputs enough, and an integer.
fn check<G: FlowGraph>(graph: &G, v: Value, inputs: &[u64], room: usize) -> Result<(), Refusal>
    ensures { result ≡ answer_unless (unasked (G.meaning graph.now) inputs.now v.0 room) tt }
{
    ensure(is_live(graph, v), Cause::NotLive)?;
    ensure_length(room, MARKS)?;
    ensure_length(inputs.len(), graph.num_values() as usize)?;
    ensure(graph.value_type(v).is_int(), Cause::NotInteger)?;
    Ok(())
}

/// Whether each input fits that a live value reads.
fn check_inputs<G: FlowGraph>(
    graph: &G,
    v: Value,
    inputs: &[u64],
    marks: &mut [u8],
) -> Result<(), Refusal>
    requires alive { live (G.meaning graph.now) v.0 ≡ true }
    requires room { 1024 ≤ length marks.old }
    ensures answer { result ≡ answer_unless (too_wide (G.meaning graph.now) inputs.now v.0) tt }
    ensures marks { marks.new ≡ replicate 1024 0 ++ drop 1024 marks.old }
{
    let mut checker = InputChecker { graph, inputs };
    let all_fit = post_order_dfs(graph, v, marks, &mut checker).is_ok();
    ensure(all_fit, Cause::InputTooWide)?;
    Ok(())
}

/// The refusal of a walk that was stopped at a value that traps.
fn refusal(error: WalkError<Value>) -> Refusal
    ensures { result ≡ refusal_of error }
{
    match error {
        WalkError::Refused(refusal) => refusal,
        WalkError::Stopped(v) => Refusal {
            cause: Cause::Trapped,
            place: v.0,
        },
    }
}

/// The number of a live value, or the first value of its walk that trapped.
fn work_out<G: FlowGraph>(
    graph: &G,
    v: Value,
    inputs: &[u64],
    marks: &mut [u8],
) -> Result<u64, Refusal>
    requires alive { live (G.meaning graph.now) v.0 ≡ true }
    requires room { 1024 ≤ length marks.old }
    ensures answer { result ≡ answer_unless (trapped (G.meaning graph.now) inputs.now v.0) (number_of_untrapped (G.meaning graph.now) inputs.now v.0) }
    ensures marks { marks.new ≡ replicate 1024 0 ++ drop 1024 marks.old }
{
    let mut evaluator = Evaluator {
        graph,
        inputs,
        numbers: [0; MARKS],
    };
    match post_order_dfs(graph, v, marks, &mut evaluator) {
        Ok(_) => Ok(number_at(&evaluator.numbers, v.0 as usize)),
        Err(error) => Err(refusal(error)),
    }
}

/// The number of a value, where `inputs` has by value number the numbers of the variables' originals.
///
/// Refused, in this order: a value that is not live, marks for fewer values than there can be and then inputs for fewer than there
/// are, a value that is no integer, an input that is read and does not fit its variable, and an operation that traps, at the first
/// value of the walk that does. The first 1,024 marks are zero after a walk; those behind, and all marks where there was no walk,
/// stay as they were.
pub fn ir_number<G: FlowGraph>(
    graph: &G,
    v: Value,
    inputs: &[u64],
    marks: &mut [u8],
) -> Result<u64, Refusal>
    ensures answer { result ≡ value_answer (G.meaning graph.now) inputs.now v.0 (length marks.old) }
    ensures unwalked { (why : Refusal) → unasked (G.meaning graph.now) inputs.now v.0 (length marks.old) ≡ Some why → marks.new ≡ marks.old }
    ensures walked { unasked (G.meaning graph.now) inputs.now v.0 (length marks.old) ≡ None → marks.new ≡ replicate 1024 0 ++ drop 1024 marks.old }
{
    check(graph, v, inputs, marks.len())?;
    check_inputs(graph, v, inputs, marks)?;
    work_out(graph, v, inputs, marks)
}
