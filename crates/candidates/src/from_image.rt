ghost use Rattle.std.specs.Prelude.{◌≡◌, Err, IfOk};
ghost use Rattle.ir.specs.declared.refusal.Refusal.{Refusal};
ghost use Rattle.records.specs.RowsOf.{rows_of};
ghost use Rattle.image.specs.Graph.{held};
ghost use Rattle.image.specs.Verdict.{Accepted, Verdict};
ghost use Rattle.candidates.specs.Candidates.{CandidatesOf};
ghost use Rattle.candidates.specs.declared.error.Error.TheVariants.{Refused};

use crate::error::Error;
use harvest::{Lhs, do_souper_harvest};
use image::Image;
use std::alloc::Global;

/// An image, and the candidates of its graph.
#[derive(Debug, Drop)]
pub struct HarvestedImage<'a> {
    pub image: Image<'a>,
    pub candidates: Vec<Lhs>,
}

/// Judges the bytes of an image, and harvests its graph if they are accepted.
pub fn harvest_image(heap: Global, bytes: &[u8]) -> Result<HarvestedImage<'_>, Error>
    ensures accepted { IfOk result (λ h. Accepted bytes.now × (held h.image ≡ rows_of bytes.now)) }
    ensures candidates { IfOk result (λ h. CandidatesOf (rows_of bytes.now) h.candidates.items) }
    ensures refused { (why : Refusal) → result ≡ Err (Refused why) → Verdict bytes.now (Err why) }
    ensures judged { (Accepted bytes.now → ⊥) → (why : Refusal) × (result ≡ Err (Refused why)) }
{
    let image = Image::checked(bytes)?;
    let candidates = do_souper_harvest(heap, &image)?;
    Ok(HarvestedImage { image, candidates })
}
