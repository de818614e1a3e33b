ghost use Rattle.std.specs.Prelude.{◌≡◌, ◌<◌, ◌≤◌, ◌⊎◌, map, take, slice_index, slice_set, MatchOption};
ghost use Rattle.ir.specs.Entities.{arg_count, values};
ghost use Rattle.ir.specs.Operations.{compute};
ghost use Rattle.flow.specs.Meaning.{width_of};
ghost use Rattle.ir.specs.Options.{and_then};
ghost use Rattle.flow.specs.Rounds.{all_of};
ghost use Rattle.eval.specs.Known.{known, value_from};
ghost use Rattle.eval.specs.Shown.{Evaluated, TrapsAt, evaluated_none};

use crate::inputs::input_of;
use arith::{Width, compute, number_at};
use flow::{FlowGraph, ValueDef, value_definition};
use ir::{IntCC, Opcode, Operands, Value};
use walk::{MARKS, Visitor};

/// The width of a value, none where it is deleted or missing.
fn width_of<G: FlowGraph>(graph: &G, v: Value) -> Option<Width>
    ensures { MatchOption result ((width_of (G.meaning graph.now) v.0 ≡ 0) ⊎ (64 < width_of (G.meaning graph.now) v.0)) (λ w. w.bits ≡ width_of (G.meaning graph.now) v.0) }
{
    Width::new(graph.value_type(v).bits())
}

/// The first operand, value 0 where there is none.
fn first(args: Operands) -> Value
    ensures { result.0 ≡ slice_index (values args) 0 }
{
    match args {
        Operands::Nullary => Value(0),
        Operands::Unary(a) | Operands::Binary(a, _) | Operands::Ternary(a, _, _) => a,
    }
}

/// The numbers of operands, as far as there are operands.
fn operand_numbers(numbers: &[u64], args: Operands) -> [u64; 3]
    ensures { take (arg_count args) result ≡ map (λ v. slice_index numbers.now v) (values args) }
{
    let of = |v: Value| number_at(numbers, v.0 as usize);
    match args {
        Operands::Nullary => [0; 3],
        Operands::Unary(a) => [of(a), 0, 0],
        Operands::Binary(a, b) => [of(a), of(b), 0],
        Operands::Ternary(a, b, c) => [of(a), of(b), of(c)],
    }
}

/// Writes a number by value number, if there is a place for it.
fn put(numbers: &mut [u64], v: Value, number: u64)
    ensures { numbers.new ≡ slice_set numbers.old v.0 number }
{
    // By its index: after `get_mut` of a slice a proof knows nothing of the elements.
    let i = v.0 as usize;
    if i < numbers.len() {
        numbers[i] = number;
    }
}

/// Works out the numbers of the values that it is shown, and stops at the first that traps.
#[derive(Drop)]
pub(crate) struct Evaluator<'a, G> {
    pub graph: &'a G,
    /// By value number, the numbers of the variables' originals.
    pub inputs: &'a [u64],
    /// By value number, the numbers of the values shown.
    pub numbers: [u64; MARKS],
}

impl<G: FlowGraph> Evaluator<'_, G> {
    /// What an operation gives at the numbers of its operands, or none where it traps.
    fn operation(&self, width: Width, opcode: Opcode, cond: IntCC, args: Operands) -> Option<u64>
        requires { (0 < width_of (G.meaning self.now.graph.now) (slice_index (values args) 0)) × (width_of (G.meaning self.now.graph.now) (slice_index (values args) 0) ≤ 64) }
        ensures { result ≡ and_then (all_of (map (known self.now.numbers) (values args))) (compute opcode cond width.bits (width_of (G.meaning self.now.graph.now) (slice_index (values args) 0))) }
    {
        let first = width_of(self.graph, first(args))?;
        let operands = operand_numbers(&self.numbers, args);
        compute(
            opcode,
            cond,
            width,
            first,
            &operands[..usize::from(args.count())],
        )
    }

    /// The number of `v` from the numbers of what it uses, or none where it traps.
    fn value(&self, v: Value) -> Option<u64>
        ensures { result ≡ value_from (G.meaning self.now.graph.now) self.now.inputs.now self.now.numbers v.0 }
    {
        let width = width_of(self.graph, v)?;
        match value_definition(self.graph, v) {
            ValueDef::Constant(imm) => Some(width.unsigned(imm)),
            ValueDef::Operation { opcode, cond, args } => self.operation(width, opcode, cond, args),
            ValueDef::Variable => Some(input_of(self.graph, self.inputs, v)),
            ValueDef::Deleted => None,
        }
    }
}

/// What stops it is the value that traps.
impl<G: FlowGraph> Visitor for Evaluator<'_, G> {
    type Stop = Value;

    ghost fits = { λ a shown b. Evaluated (G.FlowGraph.meaning a.graph.now) a.inputs.now shown (G.FlowGraph.meaning b.graph.now) b.inputs.now b.numbers };

    ghost stops = { λ a shown b stop. TrapsAt (G.FlowGraph.meaning a.graph.now) a.inputs.now shown stop.0 };

    ghost starts = { λ a. evaluated_none (G.FlowGraph.meaning a.graph.now) a.inputs.now a.numbers };

    fn show(&mut self, v: Value) -> Result<(), Value> {
        let Some(number) = self.value(v) else {
            return Err(v);
        };
        put(&mut self.numbers, v, number);
        Ok(())
    }
}
