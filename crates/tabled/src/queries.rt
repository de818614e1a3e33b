// Answers in tables are a laid-out graph.
use crate::tabled::Tabled;
use flow::{FlowGraph, LaidOut, ValueDef};
use ir::{Block, Cause, Inst, Refusal, Type, Value};

impl<G: LaidOut> FlowGraph for Tabled<'_, G> {
    ghost meaning = { λ t. G.FlowGraph.meaning t.graph.now };

    ghost lawful = { λ t. G.FlowGraph.lawful t.graph.now };

    fn num_values(&self) -> u32 {
        self.values.len() as u32
    }

    fn value_type(&self, v: Value) -> Type {
        self.values
            .get(v.0 as usize)
            .map_or(Type::Invalid, |answers| answers.ty)
    }

    fn resolve_aliases(&self, v: Value) -> Result<Value, Refusal> {
        Ok(
            self.values
                .get(v.0 as usize)
                .ok_or(Cause::NotLive)?
                .original,
        )
    }

    fn value_def(&self, v: Value) -> Result<ValueDef, Refusal> {
        Ok(self.values.get(v.0 as usize).ok_or(Cause::NotLive)?.def)
    }
}

impl<G: LaidOut> LaidOut for Tabled<'_, G> {
    ghost layout = { λ t. G.layout t.graph.now };

    fn num_blocks(&self) -> u32 {
        self.graph.num_blocks()
    }

    fn num_insts(&self) -> u32 {
        self.insts.len() as u32
    }

    fn inst_block(&self, inst: Inst) -> Result<Block, Refusal> {
        Ok(self.insts.get(inst.0 as usize).ok_or(Cause::NotLive)?.block)
    }

    fn single_result(&self, inst: Inst) -> Result<Option<Value>, Refusal> {
        Ok(
            self.insts
                .get(inst.0 as usize)
                .ok_or(Cause::NotLive)?
                .result,
        )
    }

    ghost well_laid = { λ t. G.well_laid t.graph.now };
}
