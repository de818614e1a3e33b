// The second stage of the check: the widths and immediates of rows.
ghost use Rattle.std.specs.Prelude.{◌≡◌};
ghost use Rattle.ir.specs.Codes.{type_bits};
ghost use Rattle.ir.specs.Refusals.{answer_unless, checked};
ghost use Rattle.image.specs.Held.{rows_in};
ghost use Rattle.image.specs.Verdict.{result_fault, row_fault, row_fault_in, widths_refusal};

use crate::image_rows::ImageRows;
use ir::{Cause, Inst, Refusal, Type, Value, ensure};
use rows::{ReadRows, ValueData};

impl ImageRows<'_> {
    /// Refuses a result of this type that does not go with the instruction.
    fn check_result(self, inst: Inst, ty: Type) -> Result<(), Cause>
        ensures { result ≡ checked (result_fault (rows_in self.entry.bytes.now self.entry.counts) inst.0 (type_bits ty)) }
    {
        let row = self.inst_data(inst);
        let asked = row.opcode.constraints();
        let args = self.arg_widths(row.args);
        ensure(asked.widths_fit(ty.bits(), args), Cause::Widths)?;
        ensure(asked.immediate_fits(ty, row.imm), Cause::Immediate)
    }

    /// Refuses a row whose widths do not go with what it names.
    fn check_row(self, row: ValueData) -> Result<(), Cause>
        ensures { result ≡ checked (row_fault_in (rows_in self.entry.bytes.now self.entry.counts) row) }
    {
        match row {
            ValueData::Inst { ty, num: 0, inst } => self.check_result(inst, ty),
            ValueData::Alias { ty, original } => ensure(
                self.value_width(original) == ty.bits(),
                Cause::Widths,
            ),
            _ => Ok(()),
        }
    }

    /// Refuses a value by its row.
    #[tactic(auto, unfolding(crate::specs::Verdict::row_fault))]
    fn check_value(self, v: Value) -> Result<(), Cause>
        ensures { result ≡ checked (row_fault (rows_in self.entry.bytes.now self.entry.counts) v.0) }
    {
        self.check_row(self.value_data(v))
    }

    /// Goes through the value rows in order, and names the first with something against it.
    pub(crate) fn check_widths(self) -> Result<(), Refusal>
        ensures { result ≡ answer_unless (widths_refusal (rows_in self.entry.bytes.now self.entry.counts)) tt }
    {
        // A value goes by its number here, which is the refusal's place: nothing is indexed.
        for place in 0..self.counts.values {
            self.check_value(Value(place))
                .map_err(|cause| Refusal { cause, place })?;
        }
        Ok(())
    }
}
