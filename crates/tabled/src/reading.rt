// The tables of a graph.
ghost use Rattle.std.specs.Prelude.{◌≡◌, IfOk};
ghost use Rattle.flow.specs.Layout.{inst_at};
ghost use Rattle.flow.specs.Meaning.{node};
ghost use Rattle.tabled.specs.Tables.{node_of, nodes, row_of, rows};

use crate::tabled::{InstAnswers, Tabled, ValueAnswers};
use flow::{FlowGraph, LaidOut, original, value_definition};
use ir::{Block, Inst, Value};
use std::alloc::{AllocError, Global};

/// What a graph answers of a value.
fn value_answers<G: FlowGraph>(graph: &G, v: Value) -> ValueAnswers
    ensures { node_of result ≡ node (G.meaning graph.now) v.0 }
{
    ValueAnswers {
        ty: graph.value_type(v),
        original: original(graph, v),
        def: value_definition(graph, v),
    }
}

/// What a graph answers of an instruction.
fn inst_answers<G: LaidOut>(graph: &G, inst: Inst) -> InstAnswers
    ensures { row_of result ≡ inst_at (G.layout graph.now) inst.0 }
{
    InstAnswers {
        // 64 is no block: what stands where there is no instruction
        block: graph.inst_block(inst).unwrap_or(Block(64)),
        result: graph.single_result(inst).unwrap_or(None),
    }
}

/// What a graph answers of all its values.
fn all_value_answers<G: FlowGraph>(heap: Global, graph: &G) -> Result<Vec<ValueAnswers>, AllocError>
    ensures { IfOk result (λ values. nodes values.items ≡ G.meaning graph.now) }
{
    let mut values = Vec::new(heap);
    for v in 0..graph.num_values() {
        values.push(value_answers(graph, Value(v)))?;
    }
    Ok(values)
}

/// What a graph answers of all its instructions.
fn all_inst_answers<G: LaidOut>(heap: Global, graph: &G) -> Result<Vec<InstAnswers>, AllocError>
    ensures { IfOk result (λ insts. rows insts.items ≡ (G.layout graph.now).insts) }
{
    let mut insts = Vec::new(heap);
    for inst in 0..graph.num_insts() {
        insts.push(inst_answers(graph, Inst(inst)))?;
    }
    Ok(insts)
}

impl<'a, G: LaidOut> Tabled<'a, G> {
    /// A graph with its answers.
    pub fn of(heap: Global, graph: &'a G) -> Result<Tabled<'a, G>, AllocError>
        ensures { IfOk result (λ t. t.graph.now ≡ graph.now) }
    {
        let values = all_value_answers(heap, graph)?;
        let insts = all_inst_answers(heap, graph)?;
        Ok(Tabled {
            graph,
            values,
            insts,
        })
    }
}
