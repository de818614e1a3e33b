// How many blocks an image has.
ghost use Rattle.std.specs.Prelude.{◌≡◌};
ghost use Rattle.records.specs.RowsOf.{blocks_for, blocks_in};
ghost use Rattle.image.specs.Held.{rows_in};

use crate::image_rows::ImageRows;
use ir::{Inst, Value};
use rows::{InstructionData, ReadRows, ValueData};

/// How many blocks it takes for the block that a value's row names to exist.
// 0 and not an option: no block is how many it takes where none is named.
fn blocks_in(row: ValueData) -> u64
    ensures { result ≡ blocks_in row }
{
    match row {
        ValueData::Param { block, .. } => u64::from(block.0) + 1,
        _ => 0,
    }
}

/// How many blocks it takes for the block of an instruction to exist.
fn blocks_for(row: InstructionData) -> u64
    ensures { result ≡ blocks_for row }
{
    u64::from(row.block.0) + 1
}

impl ImageRows<'_> {
    /// How many blocks there are: one more than the highest that a row names.
    pub(crate) fn num_blocks(self) -> u64
        ensures { result ≡ (rows_in self.entry.bytes.now self.entry.counts).blocks }
    {
        let params = (0..self.counts.values).map(|v| blocks_in(self.value_data(Value(v))));
        let insts = (0..self.counts.insts).map(|i| blocks_for(self.inst_data(Inst(i))));
        params.chain(insts).max().unwrap_or(0)
    }
}
