// Why a building call is refused.
ghost use Rattle.std.specs.Prelude.{◌≡◌, ◌+◌, ◌&&◌, ◌||◌, length, nat_le, nat_lt};
ghost use Rattle.ir.specs.Constraints.{constraints_of, arg_count_fits, result_count_fits};
ghost use Rattle.ir.specs.Entities.{value};
ghost use Rattle.ir.specs.Refusals.{first, answer_unless};
ghost use Rattle.rows.specs.Rows.{original};
ghost use Rattle.calls.specs.Calls.{AppendInst, ChangeToAlias, inst_of};
ghost use Rattle.plain.specs.Feed.{checks, row_checks, inst_row};
ghost use Rattle.dfg.specs.Held.{held};

use crate::decode::{first_type, results_from, types_known};
use crate::tables::Tables;
use calls::NewInst;
use ir::{Cause, IntCC, Opcode, Operands, Refusal, Value, ensure, ensure_length};
use rows::{InstructionData, ReadRows};

/// Whether an instruction of the opcode may have so many operands and results.
fn counts_fit(opcode: Opcode, new: &NewInst) -> bool
    ensures { result ≡ (arg_count_fits (constraints_of opcode) (length new.now.args.items) && result_count_fits (constraints_of opcode) (length new.now.types.items)) }
{
    let constraints = opcode.constraints();
    constraints.arg_count_fits(new.args.len()) && constraints.result_count_fits(new.types.len())
}

impl Tables {
    /// Whether there is no room for another instruction with so many results.
    fn is_full(&self, results: usize) -> bool
        ensures { result ≡ (nat_le 1024 (length (held self.now).insts) || nat_lt 1024 (length (held self.now).values + results)) }
    {
        self.insts.len() >= 1024 || results > 1024 - self.values.len()
    }

    /// Refuses the row of a new instruction that does not go with the tables; its results have these types.
    fn check_row(&self, row: InstructionData, types: &[u16]) -> Result<(), Refusal>
        ensures { result ≡ answer_unless (first (row_checks (held self.now) row types.now)) tt }
    {
        let constraints = row.opcode.constraints();
        let ty = first_type(types);
        let widths = self.arg_widths(row.args);
        ensure(
            row.block.0 < self.blocks && self.are_live(row.args),
            Cause::NotLive,
        )?;
        ensure(constraints.widths_fit(ty.bits(), widths), Cause::Widths)?;
        ensure(constraints.immediate_fits(ty, row.imm), Cause::Immediate)?;
        ensure(!self.is_full(types.len()), Cause::TableFull)?;
        Ok(())
    }

    /// The row of a new instruction, unless it is refused.
    pub(crate) fn new_row(&self, new: &NewInst) -> Result<InstructionData, Refusal>
        ensures { result ≡ answer_unless (first (checks (held self.now) 1024 (AppendInst (inst_of new.now)))) (inst_row (held self.now) (inst_of new.now)) }
    {
        let opcode = Opcode::try_from(new.opcode)?;
        let cond = IntCC::try_from(new.cond)?;
        ensure(types_known(&new.types), Cause::Unknown)?;
        ensure(counts_fit(opcode, new), Cause::WrongCount)?;
        let row = InstructionData {
            opcode,
            cond,
            imm: new.imm,
            args: Operands::try_from(new.args.as_slice())?,
            results: results_from(&new.types, self.values.len() as u32),
            block: new.block,
        };
        self.check_row(row, &new.types)?;
        Ok(row)
    }

    /// The end of the source's aliases, unless the value cannot become another name for it, whether or not that would make a
    /// loop.
    pub(crate) fn new_original(
        &self,
        dest: Value,
        src: Value,
        marks: usize,
    ) -> Result<Value, Refusal>
        ensures { result ≡ answer_unless (first (checks (held self.now) marks (ChangeToAlias dest src))) (value (original (held self.now) src.0)) }
    {
        ensure(self.is_live(dest) && self.is_live(src), Cause::NotLive)?;
        ensure(
            self.value_width(dest) == self.value_width(src),
            Cause::Widths,
        )?;
        ensure(!self.is_attached(dest), Cause::Attached)?;
        // Only here: a call that is refused before this follows no aliases.
        let original = self.resolve_aliases(src);
        ensure(original != dest, Cause::ResolvesToDestination)?;
        ensure_length(marks, 1024)?;
        Ok(original)
    }
}
