ghost use Rattle.views.specs.Pins.{Pinnable};

use crate::pin::Pin;
use arrayvec::ArrayVec;
use flow::{FlowGraph, LaidOut, ValueDef, is_live, is_variable, original};
use ir::{Block, Cause, Inst, OpcodeConstraints, Refusal, Type, Value, ensure};

/// How many variables can be pinned.
const MOST_PINS: usize = 16;

/// A graph with up to 16 of its integer variables shown as constants.
// Nothing compares or prints a view.
#[derive(Drop)]
pub struct Pinned<G: FlowGraph> {
    inner: G,
    pins: ArrayVec<Pin, MOST_PINS>,
    ghost pinnable: { Pinnable (G.meaning inner) pins.items },
}

impl<G: FlowGraph> Pinned<G> {
    ghost use Rattle.std.specs.Prelude.{◌≡◌, []};
    ghost use Rattle.ir.specs.Entities.{value};
    ghost use Rattle.ir.specs.Refusals.{answer_unless, first};
    ghost use Rattle.views.specs.Checks.{in_range, is_free, pin_checks, pins_after};
    ghost use Rattle.views.specs.Pins.{pinned_to};
    ghost use Rattle.views.specs.Theorems.{BehindPins};

    /// The graph as it is: nothing is pinned.
    pub fn new(graph: G) -> Pinned<G>
        ensures graph { result.inner ≡ graph }
        ensures pins { result.pins.items ≡ [] }
    {
        Pinned {
            inner: graph,
            pins: ArrayVec::new(),
        }
    }

    /// The graph below.
    pub fn into_inner(self) -> G
        ensures { result ≡ self.inner }
    {
        let Pinned { inner, .. } = self;
        inner
    }

    /// The constant that an original is pinned to.
    fn pinned_to(&self, original: Value) -> Option<i64>
        ensures { result ≡ pinned_to self.now.pins.items original.0 }
    {
        self.pins
            .iter()
            .find(|pin| pin.original == original)
            .map(|pin| pin.imm)
    }

    /// Whether the number is in the range of the value's type, if that is an integer's.
    fn in_range(&self, v: Value, imm: i64) -> bool
        ensures { result ≡ in_range (G.meaning self.now.inner) v.0 imm }
    {
        let ty = self.inner.value_type(v);
        !ty.is_int() || OpcodeConstraints::Constant.immediate_fits(ty, imm)
    }

    /// Whether `v` is an integer variable whose original is not pinned.
    fn is_free(&self, v: Value) -> bool
        ensures { result ≡ is_free (G.meaning self.now.inner) self.now.pins.items v.0 }
    {
        self.inner.value_type(v).is_int()
            && is_variable(&self.inner, v)
            && self.pinned_to(original(&self.inner, v)).is_none()
    }

    /// Shows the variable `v`, under all its aliases, as the constant `imm`. A refused pin changes nothing.
    #[tactic(auto, using(crate::proofs::MorePins::more_pinnable))]
    pub fn pin(&mut self, v: Value, imm: i64) -> Result<(), Refusal>
        ensures graph { self.new.inner ≡ self.old.inner }
        ensures pins { self.new.pins.items ≡ pins_after (G.meaning self.old.inner) self.old.pins.items v.0 imm }
        ensures answer { result ≡ answer_unless (first (pin_checks (G.meaning self.old.inner) self.old.pins.items v.0 imm)) tt }
    {
        ensure(is_live(&self.inner, v), Cause::NotLive)?;
        ensure(self.in_range(v, imm), Cause::Immediate)?;
        ensure(self.is_free(v), Cause::NotPinnable)?;
        ensure(self.pins.len() < MOST_PINS, Cause::PinsFull)?;
        let original = original(&self.inner, v);
        self.pins.push(Pin { original, imm });
        Ok(())
    }

    /// What every view shows: the values whose originals are pinned as constants, and all else as below.
    pub fn pins_stand(&self)
        ensures { BehindPins (G.meaning self.now.inner) self.now.pins.items }
    {}
}

impl<G: FlowGraph> FlowGraph for Pinned<G> {
    ghost use Rattle.views.specs.Pins.{pinned};
    ghost use Rattle.views.specs.PinnedLaws.{pinned_lawful};

    ghost meaning = { λ view. pinned view.pins.items (G.meaning view.inner) };

    ghost lawful = { λ view. pinned_lawful (G.meaning view.inner) (G.lawful view.inner) view.pins.items view.pinnable };

    #[tactic(auto, using(crate::specs::RedefinedLaws::length_redefined))]
    fn num_values(&self) -> u32 {
        self.inner.num_values()
    }

    #[tactic(auto, using(crate::specs::RedefinedLaws::width_redefined))]
    fn value_type(&self, v: Value) -> Type {
        self.inner.value_type(v)
    }

    #[tactic(auto, using(crate::specs::RedefinedLaws::asked_original))]
    fn resolve_aliases(&self, v: Value) -> Result<Value, Refusal> {
        self.inner.resolve_aliases(v)
    }

    #[tactic(auto, using(crate::specs::RedefinedLaws::asked_def))]
    fn value_def(&self, v: Value) -> Result<ValueDef, Refusal> {
        let original = self.inner.resolve_aliases(v)?;
        match self.pinned_to(original) {
            Some(imm) => Ok(ValueDef::Constant(imm)),
            None => self.inner.value_def(v),
        }
    }
}

impl<G: LaidOut> LaidOut for Pinned<G> {
    ghost use Rattle.views.specs.PinnedLaws.{pinned_laid_out};

    ghost layout = { λ view. G.layout view.inner };

    fn num_blocks(&self) -> u32 {
        self.inner.num_blocks()
    }

    fn num_insts(&self) -> u32 {
        self.inner.num_insts()
    }

    fn inst_block(&self, inst: Inst) -> Result<Block, Refusal> {
        self.inner.inst_block(inst)
    }

    fn single_result(&self, inst: Inst) -> Result<Option<Value>, Refusal> {
        self.inner.single_result(inst)
    }

    ghost well_laid = { λ view. pinned_laid_out (G.meaning view.inner) (G.lawful view.inner) view.pins.items view.pinnable (G.layout view.inner) (G.well_laid view.inner) };
}
