ghost use Rattle.std.specs.Prelude.{◌≡◌, length};
ghost use Rattle.ir.specs.Entities.{value};
ghost use Rattle.flow.specs.Layout.{asked_inst, inst_at as laid_at};
ghost use Rattle.flow.specs.Meaning.{asked, def_of, original_of};
ghost use Rattle.rows.specs.Meaning.{flow as flow_of, layout as layout_of, def_in, def_at};
ghost use Rattle.rows.specs.Rows.{Rows, value_at, inst_at, type_in, width_at, live, all_live, widths_of, original};

use crate::instruction::InstructionData;
use crate::value::ValueData;
use flow::ValueDef;
use ir::{Block, Cause, Inst, Operands, Refusal, Type, Value, ensure};

/// Rows that can be read one by one, wherever they are kept.
pub trait ReadRows {
    ghost rows: { Self → Rows };

    /// How many values there are, deleted ones too.
    fn num_values(&self) -> u32
        ensures { result ≡ length (rows self.now).values };

    /// How many instructions there are.
    fn num_insts(&self) -> u32
        ensures { result ≡ length (rows self.now).insts };

    /// The row of a value, a deleted one where there is none.
    fn value_data(&self, v: Value) -> ValueData
        ensures { result ≡ value_at (rows self.now) v.0 };

    /// The row of an instruction, one that says nothing where there is none.
    fn inst_data(&self, inst: Inst) -> InstructionData
        ensures { result ≡ inst_at (rows self.now) inst.0 };

    /// The type of a value, invalid where it is deleted or missing.
    fn value_type(&self, v: Value) -> Type
        ensures { result ≡ type_in (value_at (rows self.now) v.0) }
    {
        self.value_data(v).value_type()
    }

    /// The width of a value, 0 where it is deleted or missing.
    fn value_width(&self, v: Value) -> u8
        ensures { result ≡ width_at (rows self.now) v.0 }
    {
        self.value_type(v).bits()
    }

    /// Whether a value exists and is not deleted.
    fn is_live(&self, v: Value) -> bool
        ensures { result ≡ live (rows self.now) v.0 }
    {
        0 < self.value_width(v)
    }

    /// Whether all the operands are live.
    fn are_live(&self, args: Operands) -> bool
        ensures { result ≡ all_live (rows self.now) args }
    {
        args.iter().all(|a| self.is_live(a))
    }

    /// The widths of the operands, 0 where there is none.
    fn arg_widths(&self, args: Operands) -> (u8, u8, u8)
        ensures { result ≡ widths_of (rows self.now) args }
    {
        // A triple filled from an iterator, with 0 behind its end, is no plainer than the cases.
        match args {
            Operands::Nullary => (0, 0, 0),
            Operands::Unary(a) => (self.value_width(a), 0, 0),
            Operands::Binary(a, b) => (self.value_width(a), self.value_width(b), 0),
            Operands::Ternary(a, b, c) => (
                self.value_width(a),
                self.value_width(b),
                self.value_width(c),
            ),
        }
    }

    /// What defines the value of a row: an alias defines nothing of its own.
    fn row_def(&self, row: ValueData) -> ValueDef
        ensures { result ≡ def_in (rows self.now) row }
    {
        match row {
            ValueData::Inst { inst, .. } => self.inst_data(inst).definition(),
            ValueData::Param { .. } | ValueData::Union { .. } => ValueDef::Variable,
            ValueData::Alias { .. } | ValueData::Deleted => ValueDef::Deleted,
        }
    }

    /// The original of a value: the end of its aliases.
    ///
    /// It takes a step for each alias on the way. Where aliases go round, which no graph's do, it gives up after as many steps
    /// as there are values.
    fn resolve_aliases(&self, v: Value) -> Value
        ensures { result.0 ≡ original (rows self.now) v.0 }
    {
        let mut current = v;
        for _ in 0..self.num_values() {
            let ValueData::Alias { original, .. } = self.value_data(current) else {
                break;
            };
            current = original;
        }
        current
    }

    /// What defines a value: what defines its original.
    fn original_def(&self, v: Value) -> ValueDef
        ensures { result ≡ def_at (rows self.now) v.0 }
    {
        self.row_def(self.value_data(self.resolve_aliases(v)))
    }

    /// The original of a value, refused where there is no such value.
    #[tactic(auto, using(crate::proofs::Asked::original_asked))]
    fn ask_original(&self, v: Value) -> Result<Value, Refusal>
        ensures { result ≡ asked (flow_of (rows self.now)) v.0 (value (original_of (flow_of (rows self.now)) v.0)) }
    {
        ensure(v.0 < self.num_values(), Cause::NotLive)?;
        Ok(self.resolve_aliases(v))
    }

    /// What defines a value, refused where there is no such value.
    #[tactic(auto, using(crate::proofs::Asked::def_asked))]
    fn ask_def(&self, v: Value) -> Result<ValueDef, Refusal>
        ensures { result ≡ asked (flow_of (rows self.now)) v.0 (def_of (flow_of (rows self.now)) v.0) }
    {
        ensure(v.0 < self.num_values(), Cause::NotLive)?;
        Ok(self.original_def(v))
    }

    /// The block of an instruction, refused where there is no such instruction.
    #[tactic(auto, using(crate::proofs::Asked::block_asked))]
    fn ask_block(&self, inst: Inst) -> Result<Block, Refusal>
        ensures { result ≡ asked_inst (layout_of (rows self.now)) inst.0 (laid_at (layout_of (rows self.now)) inst.0).block }
    {
        ensure(inst.0 < self.num_insts(), Cause::NotLive)?;
        Ok(self.inst_data(inst).block)
    }

    /// The result of an instruction, if it lists just one, refused where there is no such instruction.
    #[tactic(auto, using(crate::proofs::Asked::result_asked))]
    fn ask_single_result(&self, inst: Inst) -> Result<Option<Value>, Refusal>
        ensures { result ≡ asked_inst (layout_of (rows self.now)) inst.0 (laid_at (layout_of (rows self.now)) inst.0).result }
    {
        ensure(inst.0 < self.num_insts(), Cause::NotLive)?;
        Ok(self.inst_data(inst).results.single())
    }
}
