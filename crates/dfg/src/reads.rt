// What the tables say of one value or one instruction.
ghost use Rattle.std.specs.Prelude.{◌≡◌};
ghost use Rattle.plain.specs.Attached.{attached};
ghost use Rattle.plain.specs.Loops.{through};
ghost use Rattle.dfg.specs.Held.{held};

use crate::tables::Tables;
use ir::{Inst, Value};
use rows::{InstructionData, ReadRows, ValueData};

impl ReadRows for Tables {
    ghost rows = { held };

    fn num_values(&self) -> u32 {
        self.values.len() as u32
    }

    fn num_insts(&self) -> u32 {
        self.insts.len() as u32
    }

    fn value_data(&self, v: Value) -> ValueData {
        self.values
            .get(v.0 as usize)
            .copied()
            .unwrap_or(ValueData::Deleted)
    }

    fn inst_data(&self, inst: Inst) -> InstructionData {
        self.insts
            .get(inst.0 as usize)
            .copied()
            .unwrap_or(InstructionData::MISSING)
    }
}

impl Tables {
    /// Whether a value's aliases lead through `dest`.
    pub(crate) fn leads_through(&self, value: Value, dest: Value) -> bool
        ensures { result ≡ through self.now.values.items dest.0 value.0 }
    {
        // By a loop: `successors` along the aliases has no end to a proof, so it leaves `any` unproved.
        let mut v = value;
        while let ValueData::Alias { original, .. } = self.value_data(v) {
            if v == dest {
                return true;
            }
            v = original;
        }
        v == dest
    }

    /// Whether a value is a parameter or a result that its instruction lists.
    pub(crate) fn is_attached(&self, v: Value) -> bool
        ensures { result ≡ attached (held self.now) v.0 }
    {
        match self.value_data(v) {
            ValueData::Inst { inst, .. } => self.inst_data(inst).results.lists(v),
            ValueData::Param { .. } => true,
            ValueData::Alias { .. } | ValueData::Union { .. } | ValueData::Deleted => false,
        }
    }
}
