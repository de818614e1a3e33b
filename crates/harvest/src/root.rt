// Roots: the values that a candidate is harvested for.
ghost use Rattle.std.specs.Prelude.{◌≡◌, MatchOption};
ghost use Rattle.std.specs.List.{list_any};
ghost use Rattle.ir.specs.Entities.{values};
ghost use Rattle.flow.specs.Layout.{inst_at};
ghost use Rattle.flow.specs.Meaning.{def_of};
ghost use Rattle.flow.specs.Walk.{walk};
ghost use Rattle.souper.specs.Counted.{counted, is_counted};
ghost use Rattle.souper.specs.Translation.{shape};
ghost use Rattle.harvest.specs.Roots.{is_operation, is_root, reaches_two, root_at};

use crate::counter::OperationCounter;
use crate::forms::is_counted;
use flow::{FlowGraph, LaidOut, ValueDef, value_args, value_definition};
use ir::{Inst, Operands, Value};
use walk::{MARKS, post_order_dfs};

/// How many counted operations a value reaches.
fn count_operations<G: FlowGraph>(graph: &G, v: Value, marks: &mut [u8; MARKS]) -> u32
    ensures { result ≡ counted (G.meaning graph.now) (walk (G.meaning graph.now) v.0) }
{
    let mut counter = OperationCounter { graph, count: 0 };
    let Ok(_) = post_order_dfs(graph, v, marks, &mut counter) else {
        // Nothing live is there.
        return 0;
    };
    counter.count
}

/// Whether one of the operands is counted.
fn has_counted<G: FlowGraph>(graph: &G, args: Operands) -> bool
    ensures { result ≡ list_any (λ u. is_counted (shape (G.meaning graph.now) u)) (values args) }
{
    args.iter().any(|v| is_counted(graph, v))
}

/// Whether an operation defines one of the operands.
fn has_operation<G: FlowGraph>(graph: &G, args: Operands) -> bool
    ensures { result ≡ list_any (λ u. is_operation (def_of (G.meaning graph.now) u)) (values args) }
{
    args.iter().any(|v| matches!(value_definition(graph, v), ValueDef::Operation { .. }))
}

/// Whether a value reaches two counted operations or more, where that shows at the value and its operands.
fn told_by_operands<G: FlowGraph>(graph: &G, v: Value) -> Option<bool>
    ensures { MatchOption result (Unit {0}) (λ two. two ≡ reaches_two (G.meaning graph.now) v.0) }
{
    let args = value_args(graph, v);
    if is_counted(graph, v) && has_counted(graph, args) {
        Some(true)
    } else if has_operation(graph, args) {
        None
    } else {
        Some(false)
    }
}

/// Whether a value reaches two counted operations or more, itself included.
// Most values tell without a walk.
pub(crate) fn reaches_two<G: FlowGraph>(graph: &G, v: Value, marks: &mut [u8; MARKS]) -> bool
    ensures { result ≡ reaches_two (G.meaning graph.now) v.0 }
{
    match told_by_operands(graph, v) {
        Some(two) => two,
        None => count_operations(graph, v, marks) >= 2,
    }
}

/// Whether a value is a root.
fn is_root<G: FlowGraph>(graph: &G, v: Value, marks: &mut [u8; MARKS]) -> bool
    ensures { result ≡ is_root (G.meaning graph.now) v.0 }
{
    graph.value_type(v).is_int() && reaches_two(graph, v, marks)
}

/// The root among the results of an instruction.
pub(crate) fn root_at<G: LaidOut>(graph: &G, inst: Inst, marks: &mut [u8; MARKS]) -> Option<Value>
    ensures { result ≡ root_at (G.FlowGraph.meaning graph.now) (inst_at (G.layout graph.now) inst.0) }
{
    let value = graph.single_result(inst).unwrap_or(None)?;
    is_root(graph, value, marks).then_some(value)
}
