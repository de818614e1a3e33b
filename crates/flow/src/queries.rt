ghost use Rattle.std.specs.Prelude.{◌≡◌};
ghost use Rattle.ir.specs.Entities.{value, values};
ghost use Rattle.flow.specs.Meaning.{def_of, is_variable, live, original_of, present, used, uses};

use crate::definition::ValueDef;
use crate::graph::FlowGraph;
use ir::{Operands, Value};

impl ValueDef {
    /// The operands of the definition, none where it is no operation.
    pub fn args(self) -> Operands
        ensures { values result ≡ used self }
    {
        match self {
            ValueDef::Operation { args, .. } => args,
            ValueDef::Constant(_) | ValueDef::Variable | ValueDef::Deleted => Operands::Nullary,
        }
    }

    /// Whether there is a definition.
    pub fn is_present(self) -> bool
        ensures { result ≡ present self }
    {
        !matches!(self, ValueDef::Deleted)
    }

    /// Whether it is that of a variable.
    pub fn is_variable(self) -> bool
        ensures { result ≡ is_variable self }
    {
        matches!(self, ValueDef::Variable)
    }
}

/// What defines `v`, `Deleted` where there is no such value.
pub fn value_definition<G: FlowGraph>(graph: &G, v: Value) -> ValueDef
    ensures { result ≡ def_of (G.meaning graph.now) v.0 }
{
    graph.value_def(v).unwrap_or(ValueDef::Deleted)
}

/// The operands of the operation that defines `v`, none where no operation does.
pub fn value_args<G: FlowGraph>(graph: &G, v: Value) -> Operands
    ensures { values result ≡ uses (G.meaning graph.now) v.0 }
{
    value_definition(graph, v).args()
}

/// Whether `v` exists and is not deleted.
pub fn is_live<G: FlowGraph>(graph: &G, v: Value) -> bool
    ensures { result ≡ live (G.meaning graph.now) v.0 }
{
    value_definition(graph, v).is_present()
}

/// Whether `v` is a variable.
pub fn is_variable<G: FlowGraph>(graph: &G, v: Value) -> bool
    ensures { result ≡ is_variable (def_of (G.meaning graph.now) v.0) }
{
    value_definition(graph, v).is_variable()
}

/// The value at the end of the aliases of `v`, value 0 where there is no `v`.
pub fn original<G: FlowGraph>(graph: &G, v: Value) -> Value
    ensures { result ≡ value (original_of (G.meaning graph.now) v.0) }
{
    graph.resolve_aliases(v).unwrap_or(Value(0))
}
