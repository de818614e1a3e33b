ghost use Rattle.std.specs.Prelude.{◌≡◌};
ghost use Rattle.views.specs.Originals.{originals, resolved, with_originals};
ghost use Rattle.views.specs.Theorems.{BehindOriginals};
ghost use Rattle.views.specs.ResolvedLaws.{resolved_laid_out, resolved_lawful};

use flow::{FlowGraph, LaidOut, ValueDef, original};
use ir::{Block, Inst, Operands, Refusal, Type, Value};

/// A graph with each operand shown as its original.
// Nothing compares or prints a view.
#[derive(Drop)]
pub struct Resolved<G> {
    inner: G,
}

impl<G: FlowGraph> Resolved<G> {
    /// The view of a graph.
    pub fn new(graph: G) -> Resolved<G>
        ensures { result.inner ≡ graph }
    {
        Resolved { inner: graph }
    }

    /// The graph below.
    pub fn into_inner(self) -> G
        ensures { result ≡ self.inner }
    {
        let Resolved { inner } = self;
        inner
    }

    /// What every view shows: no operand is an alias, and all else is as below.
    pub fn originals_stand(&self)
        ensures { BehindOriginals (G.meaning self.now.inner) }
    {}
}

/// The original of each operand.
fn originals<G: FlowGraph>(graph: &G, args: Operands) -> Operands
    ensures { result ≡ originals (G.meaning graph.now) args }
{
    match args {
        Operands::Nullary => Operands::Nullary,
        Operands::Unary(a) => Operands::Unary(original(graph, a)),
        Operands::Binary(a, b) => Operands::Binary(original(graph, a), original(graph, b)),
        Operands::Ternary(a, b, c) => Operands::Ternary(
            original(graph, a),
            original(graph, b),
            original(graph, c),
        ),
    }
}

/// What `def` is, with the originals of its operands.
fn with_originals<G: FlowGraph>(graph: &G, def: ValueDef) -> ValueDef
    ensures { result ≡ with_originals (G.meaning graph.now) def }
{
    match def {
        ValueDef::Operation { opcode, cond, args } => ValueDef::Operation {
            opcode,
            cond,
            args: originals(graph, args),
        },
        ValueDef::Constant(_) | ValueDef::Variable | ValueDef::Deleted => def,
    }
}

impl<G: FlowGraph> FlowGraph for Resolved<G> {
    ghost meaning = { λ view. resolved (G.meaning view.inner) };

    ghost lawful = { λ view. resolved_lawful (G.meaning view.inner) (G.lawful view.inner) };

    #[tactic(auto, using(crate::specs::RedefinedLaws::length_redefined))]
    fn num_values(&self) -> u32 {
        self.inner.num_values()
    }

    #[tactic(auto, using(crate::specs::RedefinedLaws::width_redefined))]
    fn value_type(&self, v: Value) -> Type {
        self.inner.value_type(v)
    }

    #[tactic(auto, using(crate::specs::RedefinedLaws::asked_original))]
    fn resolve_aliases(&self, v: Value) -> Result<Value, Refusal> {
        self.inner.resolve_aliases(v)
    }

    #[tactic(auto, using(crate::specs::RedefinedLaws::asked_def))]
    fn value_def(&self, v: Value) -> Result<ValueDef, Refusal> {
        let def = self.inner.value_def(v)?;
        Ok(with_originals(&self.inner, def))
    }
}

impl<G: LaidOut> LaidOut for Resolved<G> {
    ghost layout = { λ view. G.layout view.inner };

    fn num_blocks(&self) -> u32 {
        self.inner.num_blocks()
    }

    fn num_insts(&self) -> u32 {
        self.inner.num_insts()
    }

    fn inst_block(&self, inst: Inst) -> Result<Block, Refusal> {
        self.inner.inst_block(inst)
    }

    fn single_result(&self, inst: Inst) -> Result<Option<Value>, Refusal> {
        self.inner.single_result(inst)
    }

    ghost well_laid = { λ view. resolved_laid_out (G.meaning view.inner) (G.lawful view.inner) (G.layout view.inner) (G.well_laid view.inner) };
}
