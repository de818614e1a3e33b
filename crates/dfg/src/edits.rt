// The changes that building calls make to the tables.
ghost use Rattle.std.specs.Prelude.{◌≡◌, ◌≢◌, false, ◌+◌, ◌<◌, ◌≤◌, ◌∷◌, [], ◌++◌, map, length, IfOk, vec_len, vec_capacity, slice_index_or, slice_set};
ghost use Rattle.std.specs.Borrow.{sem, follows};
ghost use Rattle.std.specs.Vec.{with_item};
ghost use Rattle.rows.specs.Rows.{original, erased, empty, inst_at, value_at, is_alias, type_in};
ghost use Rattle.rows.specs.contracts.instruction.InstructionData.{the_row as the_inst_row};
ghost use Rattle.calls.specs.Calls.{MakeBlock, ClearResults, ResolveAllAliases};
ghost use Rattle.plain.specs.Attached.{param_count, map_args, rewritten, is_param_of};
ghost use Rattle.dfg.specs.Held.{held};
ghost use Rattle.plain.specs.Feed.{grown, result_rows, next_block, next_value, next_inst};
ghost use Rattle.rows.specs.declared.value.ValueData.TheVariants.{Param, Alias};
ghost use Rattle.dfg.specs.contracts.tables.Tables.{the_row};

use crate::tables::Tables;
use ir::{Block, Inst, Operands, Type, Value};
use rows::{InstructionData, ReadRows, Results, ValueData};
use std::alloc::{AllocError, Global};

/// Whether the row is that of a parameter of the block.
fn is_param_of(row: ValueData, block: Block) -> bool
    ensures { result ≡ is_param_of block.0 row }
{
    matches!(row, ValueData::Param { block: b, .. } if b == block)
}

/// How many parameters the block has.
#[tactic(auto, unfolding(plain::specs::Attached::param_count))]
fn num_block_params(values: &[ValueData], block: Block) -> u16
    requires { length values.now ≤ 1024 }
    ensures { result ≡ param_count values.now block.0 }
{
    // A loop: each new parameter asks every row, and a chain of `filter` and `count` takes twice as long to.
    let mut count = 0;
    for row in values {
        if is_param_of(*row, block) {
            count += 1;
        }
    }
    count
}

/// Adds a row for each result of the instruction `inst`.
// Only the vector is lent here, so its capacity is said: the room is an invariant of the tables around it.
fn push_results(values: &mut Vec<ValueData>, types: &[u16], inst: Inst)
    requires few { length types.now ≤ 2 }
    requires room { vec_len values.old + length types.now ≤ vec_capacity values.old }
    ensures items { values.new.items ≡ values.old.items ++ result_rows types.now inst.0 }
    ensures capacity { vec_capacity values.new ≡ vec_capacity values.old }
{
    for (num, ty) in types.iter().enumerate() {
        let ty = Type::from_bits_or_invalid(*ty);
        let num = num as u16;
        values.push_reserved(ValueData::Inst { ty, num, inst });
    }
}

/// Deletes the aliases.
fn delete_aliases(values: &mut [ValueData])
    ensures { values.new ≡ map erased values.old }
{
    for row in values.iter_mut() {
        *row = row.without_alias();
    }
}

impl Tables {
    /// Empty tables, with room for all that they may ever hold.
    pub(crate) fn with_room(heap: Global) -> Result<Tables, AllocError>
        ensures { IfOk result (λ t. held t ≡ empty) }
    {
        let values = Vec::with_capacity(heap, 1024)?;
        let insts = Vec::with_capacity(heap, 1024)?;
        Ok(Tables {
            values,
            insts,
            blocks: 0,
        })
    }

    /// Adds a block.
    pub(crate) fn push_block(&mut self) -> Block
        requires { self.old.blocks < 64 }
        ensures after { held self.new ≡ grown (held self.old) MakeBlock }
        ensures block { result ≡ next_block (held self.old) }
    {
        let block = Block(self.blocks);
        self.blocks += 1;
        block
    }

    /// Adds a parameter of the block.
    pub(crate) fn push_param(&mut self, block: Block, ty: Type) -> Value
        requires { length self.old.values.items < 1024 }
        ensures after { held self.new ≡ record (held self.old) { values = self.old.values.items ++ Param ty (param_count self.old.values.items block.0) block ∷ [] } }
        ensures value { result ≡ next_value (held self.old) }
    {
        let v = Value(self.values.len() as u32);
        let num = num_block_params(&self.values, block);
        self.values
            .push_reserved(ValueData::Param { ty, num, block });
        v
    }

    /// Adds an instruction with its results, whose types are these.
    pub(crate) fn push_inst(&mut self, row: InstructionData, types: &[u16]) -> Inst
        requires insts { length self.old.insts.items < 1024 }
        requires few { length types.now ≤ 2 }
        requires values { length self.old.values.items + length types.now ≤ 1024 }
        ensures after { held self.new ≡ record (held self.old) { values = self.old.values.items ++ result_rows types.now (length self.old.insts.items); insts = self.old.insts.items ++ row ∷ [] } }
        ensures inst { result ≡ next_inst (held self.old) }
    {
        let inst = Inst(self.insts.len() as u32);
        push_results(&mut self.values, types, inst);
        self.insts.push_reserved(row);
        inst
    }

    // That it is there is asked here, of `clear` and of `resolve_inst`: a type of such numbers would have to name its tables.
    /// The row of an instruction, to change in place.
    fn inst_mut(&mut self, inst: Inst) -> &mut InstructionData
        requires { inst.0 < vec_len self.old.insts }
        ensures* follows { sem 𝓛 (follows the_row the_inst_row self.entry.ghost_name result.ghost_name (λ w. record self.old { insts = with_item self.old.insts inst.0 w })) }
        ensures value { result.now ≡ slice_index_or self.old.insts.items inst.0 result.now }
    {
        &mut self.insts[inst.0 as usize]
    }

    /// Empties an instruction's list of results.
    pub(crate) fn clear(&mut self, inst: Inst)
        requires { inst.0 < length self.old.insts.items }
        ensures { held self.new ≡ grown (held self.old) (ClearResults inst) }
    {
        self.inst_mut(inst).results = Results::Empty;
    }

    /// Makes a value another name for an original, which is another value.
    pub(crate) fn set_alias(&mut self, dest: Value, original: Value)
        requires within { dest.0 < length self.old.values.items }
        requires ends { is_alias (value_at (held self.old) original.0) ≡ false }
        requires other { original.0 ≢ dest.0 }
        ensures { held self.new ≡ record (held self.old) { values = slice_set self.old.values.items dest.0 (Alias (type_in (value_at (held self.old) dest.0)) original) } }
    {
        let ty = self.value_type(dest);
        self.values[dest.0 as usize] = ValueData::Alias { ty, original };
    }

    /// The operands, each replaced by its original.
    fn resolved(&self, args: Operands) -> Operands
        ensures { result ≡ map_args (original (held self.now)) args }
    {
        // Case by case: `Operands::map` would ask that its closure may be called, and no public call here asks anything.
        match args {
            Operands::Nullary => Operands::Nullary,
            Operands::Unary(a) => Operands::Unary(self.resolve_aliases(a)),
            Operands::Binary(a, b) => Operands::Binary(
                self.resolve_aliases(a),
                self.resolve_aliases(b),
            ),
            Operands::Ternary(a, b, c) => {
                Operands::Ternary(
                    self.resolve_aliases(a),
                    self.resolve_aliases(b),
                    self.resolve_aliases(c),
                )
            }
        }
    }

    /// Makes each operand of one instruction its original.
    fn resolve_inst(&mut self, inst: Inst)
        requires { inst.0 < vec_len self.old.insts }
        ensures { held self.new ≡ record (held self.old) { insts = slice_set self.old.insts.items inst.0 (rewritten (original (held self.old)) (inst_at (held self.old) inst.0)) } }
    {
        let args = self.resolved(self.inst_data(inst).args);
        self.inst_mut(inst).args = args;
    }

    /// Makes every operand of every instruction its original.
    fn resolve_operands(&mut self)
        ensures { held self.new ≡ record (held self.old) { insts = map (rewritten (original (held self.old))) self.old.insts.items } }
    {
        // By number: each row is lent through `&mut self` for its rewrite, and the tables are asked for the originals meanwhile.
        for i in 0..self.insts.len() as u32 {
            self.resolve_inst(Inst(i));
        }
    }

    /// Makes every operand its original, and then deletes the aliases.
    pub(crate) fn resolve_all(&mut self)
        ensures { held self.new ≡ grown (held self.old) ResolveAllAliases }
    {
        self.resolve_operands();
        delete_aliases(&mut self.values);
    }
}
