ghost use Rattle.std.specs.Prelude.{◌≤◌};
ghost use Rattle.image.specs.Held.{rows_in};

use ir::{Inst, Value};
use records::{Counts, Record};
use rows::{InstructionData, ReadRows, ValueData};

/// The rows in the records of an image: value records first, then instruction records, so many of each.
#[derive(Clone, Copy, PartialEq, Eq, Debug)]
pub struct ImageRows<'a> {
    pub(crate) bytes: &'a [u8],
    pub(crate) counts: Counts,
    ghost few_values: { counts.values ≤ 1024 },
    ghost few_insts: { counts.insts ≤ 1024 },
}

impl ReadRows for ImageRows<'_> {
    ghost rows = { λ image. rows_in image.bytes.now image.counts };

    #[tactic(auto, using(crate::proofs::Held::num_values))]
    fn num_values(&self) -> u32 {
        self.counts.values
    }

    #[tactic(auto, using(crate::proofs::Held::num_insts))]
    fn num_insts(&self) -> u32 {
        self.counts.insts
    }

    #[tactic(auto, using(crate::proofs::Held::value_in, crate::proofs::Held::value_past))]
    fn value_data(&self, v: Value) -> ValueData {
        if v.0 >= self.counts.values {
            return ValueData::Deleted;
        }
        Record::of(self.bytes, v.0 as usize).value().row()
    }

    #[tactic(auto, using(crate::proofs::Held::inst_in, crate::proofs::Held::inst_past))]
    fn inst_data(&self, inst: Inst) -> InstructionData {
        if inst.0 >= self.counts.insts {
            return InstructionData::MISSING;
        }
        Record::of(self.bytes, self.counts.values as usize + inst.0 as usize)
            .inst()
            .row()
    }
}
