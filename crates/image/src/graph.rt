ghost use Rattle.std.specs.Prelude.{◌≡◌};
ghost use Rattle.rows.specs.WellFormed.{WellFormed};
ghost use Rattle.image.specs.Held.{rows_in};

use crate::image_rows::ImageRows;

/// A laid-out graph in the caller's bytes: rows that are well-formed, read where they lie.
#[derive(Clone, Copy, Debug)]
pub struct Image<'a> {
    pub(crate) rows: ImageRows<'a>,
    /// How many blocks the rows name, told once.
    pub(crate) blocks: u32,
    ghost well_formed: { WellFormed (rows_in rows.bytes.now rows.counts) },
    ghost blocks_named: { blocks ≡ (rows_in rows.bytes.now rows.counts).blocks },
}
