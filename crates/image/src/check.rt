// The check of bytes as a whole.
ghost use Rattle.std.specs.Prelude.{Decides, is_ok};
ghost use Rattle.image.specs.Verdict.{IsImage, Verdict};

use crate::image_rows::ImageRows;
use ir::Refusal;
use records::{Counts, check_records};

/// Checks bytes as an image: how many records of each kind they have, or why they are refused.
///
/// The records are judged first, one by one; then the widths of the rows that they stand for; and then what goes round.
pub fn check_image(bytes: &[u8]) -> Result<Counts, Refusal>
    ensures verdict { Verdict bytes.now result }
    ensures accepted { Decides (is_ok result) (IsImage bytes.now) }
{
    let counts = check_records(bytes)?;
    let image = ImageRows { bytes, counts };
    image.check_widths()?;
    image.check_rounds()?;
    Ok(counts)
}
