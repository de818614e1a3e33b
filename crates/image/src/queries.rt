// An image is a flow graph, laid out.
ghost use Rattle.rows.specs.Meaning.{flow as flow_of, layout as layout_of};
ghost use Rattle.rows.proofs.Lawfulness.{lawful as rows_lawful, laid_out as rows_laid_out};
ghost use Rattle.image.specs.Graph.{held};

use crate::graph::Image;
use flow::{FlowGraph, LaidOut, ValueDef};
use ir::{Block, Inst, Refusal, Type, Value};
use rows::ReadRows;

impl FlowGraph for Image<'_> {
    ghost meaning = { λ g. flow_of (held g) };

    ghost lawful = { λ g. rows_lawful (held g) g.well_formed.0 g.well_formed.2 };

    #[tactic(auto, using(rows::proofs::Lawfulness::length_flow))]
    fn num_values(&self) -> u32 {
        self.rows.num_values()
    }

    #[tactic(auto, using(rows::proofs::Lawfulness::width_is))]
    fn value_type(&self, v: Value) -> Type {
        self.rows.value_type(v)
    }

    fn resolve_aliases(&self, v: Value) -> Result<Value, Refusal> {
        self.rows.ask_original(v)
    }

    fn value_def(&self, v: Value) -> Result<ValueDef, Refusal> {
        self.rows.ask_def(v)
    }
}

impl LaidOut for Image<'_> {
    ghost layout = { λ g. layout_of (held g) };

    #[tactic(auto, unfolding(rows::specs::Meaning::layout))]
    fn num_blocks(&self) -> u32 {
        self.blocks
    }

    #[tactic(auto, using(rows::proofs::Lawfulness::length_layout))]
    fn num_insts(&self) -> u32 {
        self.rows.num_insts()
    }

    fn inst_block(&self, inst: Inst) -> Result<Block, Refusal> {
        self.rows.ask_block(inst)
    }

    fn single_result(&self, inst: Inst) -> Result<Option<Value>, Refusal> {
        self.rows.ask_single_result(inst)
    }

    ghost well_laid = { λ g. rows_laid_out (held g) g.well_formed.0 g.well_formed.1 };
}
