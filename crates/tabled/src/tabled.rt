ghost use Rattle.std.specs.Prelude.{◌≡◌};
ghost use Rattle.tabled.specs.Tables.{nodes, rows};

use flow::{LaidOut, ValueDef};
use ir::{Block, Type, Value};

/// What is answered of one value.
#[derive(Clone, Copy, PartialEq, Eq, Debug)]
pub(crate) struct ValueAnswers {
    pub ty: Type,
    pub original: Value,
    pub def: ValueDef,
}

/// What is answered of one instruction.
#[derive(Clone, Copy, PartialEq, Eq, Debug)]
pub(crate) struct InstAnswers {
    pub block: Block,
    pub result: Option<Value>,
}

/// A laid-out graph with its answers.
// Nothing compares or prints one.
#[derive(Drop)]
pub struct Tabled<'a, G: LaidOut> {
    pub(crate) graph: &'a G,
    pub(crate) values: Vec<ValueAnswers>,
    pub(crate) insts: Vec<InstAnswers>,
    ghost of_values: { nodes values.items ≡ G.FlowGraph.meaning graph.now },
    ghost of_insts: { rows insts.items ≡ (G.layout graph.now).insts },
}
