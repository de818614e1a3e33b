// The building calls.
ghost use Rattle.std.specs.Prelude.{◌≡◌, length, IfOk};
ghost use Rattle.rows.specs.Rows.{empty};
ghost use Rattle.calls.specs.Calls.{MakeBlock, AppendBlockParam, AppendInst, ClearResults, ChangeToAlias, ResolveAllAliases, inst_of};
ghost use Rattle.plain.specs.AliasLoops.{JudgedByLoops};
ghost use Rattle.dfg.specs.Plain.{plain};
ghost use Rattle.plain.specs.Feed.{fed, fed_with, answered, next_block, next_value, next_inst};
ghost use Rattle.plain.specs.Marks.{marks_after};

use crate::alias_loops::NewAlias;
use crate::dfg::DataFlowGraph;
use crate::tables::Tables;
use calls::NewInst;
use ir::{Block, Cause, Inst, Refusal, Type, Value, ensure};
use std::alloc::{AllocError, Global};

impl DataFlowGraph {
    /// An empty graph, with room for all that it may ever hold, so that no building call runs out of memory.
    #[tactic(auto, using(rows::proofs::Lawfulness::empty_loopless))]
    pub fn new(heap: Global) -> Result<DataFlowGraph, AllocError>
        ensures { IfOk result (λ g. plain g ≡ empty) }
    {
        let tables = Tables::with_room(heap)?;
        Ok(DataFlowGraph { tables })
    }

    /// Adds a block.
    pub fn make_block(&mut self) -> Result<Block, Refusal>
        ensures after { plain self.new ≡ fed (plain self.old) MakeBlock }
        ensures value { result ≡ answered 1024 (plain self.old) MakeBlock (next_block (plain self.old)) }
    {
        ensure(self.tables.blocks < 64, Cause::TableFull)?;
        Ok(self.tables.push_block())
    }

    /// Adds a parameter of a type of so many bits to a block.
    pub fn append_block_param(&mut self, block: Block, ty: u16) -> Result<Value, Refusal>
        ensures after { plain self.new ≡ fed (plain self.old) (AppendBlockParam block ty) }
        ensures value { result ≡ answered 1024 (plain self.old) (AppendBlockParam block ty) (next_value (plain self.old)) }
    {
        // The bits are a number, as the caller gave them: one that no type has is refused here.
        let ty = Type::try_from(ty)?;
        ensure(block.0 < self.tables.blocks, Cause::NotLive)?;
        ensure(self.tables.values.len() < 1024, Cause::TableFull)?;
        Ok(self.tables.push_param(block, ty))
    }

    /// Adds an instruction with its results.
    pub fn append_inst(&mut self, new: &NewInst) -> Result<Inst, Refusal>
        ensures after { plain self.new ≡ fed (plain self.old) (AppendInst (inst_of new.now)) }
        ensures value { result ≡ answered 1024 (plain self.old) (AppendInst (inst_of new.now)) (next_inst (plain self.old)) }
    {
        let row = self.tables.new_row(new)?;
        Ok(self.tables.push_inst(row, &new.types))
    }

    /// Empties an instruction's list of results, which keep their definitions.
    pub fn clear_results(&mut self, inst: Inst) -> Result<(), Refusal>
        ensures after { plain self.new ≡ fed (plain self.old) (ClearResults inst) }
        ensures value { result ≡ answered 1024 (plain self.old) (ClearResults inst) tt }
    {
        ensure((inst.0 as usize) < self.tables.insts.len(), Cause::NotLive)?;
        self.tables.clear(inst);
        Ok(())
    }

    /// Makes a value that is not attached another name for the end of the source's aliases.
    ///
    /// The caller lends at least 1,024 bytes for the marks of a walk, whatever they hold.
    pub fn change_to_alias(
        &mut self,
        dest: Value,
        src: Value,
        marks: &mut [u8],
    ) -> Result<(), Refusal>
        ensures after { plain self.new ≡ fed_with (length marks.old) (plain self.old) (ChangeToAlias dest src) }
        ensures value { result ≡ answered (length marks.old) (plain self.old) (ChangeToAlias dest src) tt }
        ensures marks { marks.new ≡ marks_after (plain self.old) (ChangeToAlias dest src) marks.old }
        ensures loops { JudgedByLoops (plain self.old) (length marks.old) dest src result }
    {
        let original = self.tables.new_original(dest, src, marks.len())?;
        let alias = NewAlias {
            graph: self,
            dest,
            original,
        };
        let Some(marks) = marks.first_chunk_mut() else {
            unreachable!()
        };
        alias.check_loops(marks)?;
        self.tables.set_alias(dest, original);
        Ok(())
    }

    /// Makes every operand its original, and then deletes the aliases.
    pub fn resolve_all_aliases(&mut self)
        ensures { plain self.new ≡ fed (plain self.old) ResolveAllAliases }
    {
        self.tables.resolve_all();
    }
}
