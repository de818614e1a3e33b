// How the values of a graph are translated.
ghost use Rattle.std.specs.Prelude.{◌≡◌};
ghost use Rattle.souper.specs.Counted.{is_counted};
ghost use Rattle.souper.specs.Translation.{def_form, shape};

use flow::{FlowGraph, ValueDef, value_definition};
use ir::Value;
use souper::Form;

/// How what `def` defines is translated.
// Inlined, since a harvest asks for each value of each walk.
#[inline(always)]
pub(crate) fn form_of<G: FlowGraph>(graph: &G, def: ValueDef) -> Form
    ensures { result ≡ def_form (G.meaning graph.now) def }
{
    match def {
        ValueDef::Operation { opcode, cond, args } => { Form::of(graph, opcode, cond, args) }
        ValueDef::Constant(_) | ValueDef::Variable | ValueDef::Deleted => Form::Untranslated,
    }
}

/// Whether an operation that has a translation defines `v`.
pub(crate) fn is_counted<G: FlowGraph>(graph: &G, v: Value) -> bool
    ensures { result ≡ is_counted (shape (G.meaning graph.now) v.0) }
{
    form_of(graph, value_definition(graph, v)).is_translated()
}
