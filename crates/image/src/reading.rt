// The graph in bytes, or why they are refused.
ghost use Rattle.std.specs.Prelude.{◌≡◌, Err, MatchResult};
ghost use Rattle.rows.specs.Meaning.{flow as flow_of, layout as layout_of};
ghost use Rattle.rows.specs.Rows.{empty};
ghost use Rattle.records.specs.RowsOf.{rows_of};
ghost use Rattle.image.specs.Graph.{Means, held};
ghost use Rattle.image.specs.Verdict.{Accepted, StandsFor, Verdict};

use crate::check::check_image;
use crate::graph::Image;
use crate::image_rows::ImageRows;
use ir::Refusal;
use records::Counts;

/// The graph with no rows.
#[tactic(auto, using(crate::proofs::Standing::nothing_held, crate::proofs::Standing::nothing_blocks, crate::proofs::Standing::nothing_well_formed))]
fn empty() -> Image<'static>
    ensures { held result ≡ empty }
{
    let counts = Counts {
        values: 0,
        insts: 0,
    };
    Image {
        rows: ImageRows { bytes: &[], counts },
        blocks: 0,
    }
}

impl<'a> Image<'a> {
    /// The graph in the bytes, unless they are refused.
    #[tactic(auto, using(crate::proofs::Standing::few_values, crate::proofs::Standing::few_insts, crate::proofs::Standing::few_blocks, crate::proofs::Standing::accepted_rows, crate::proofs::Standing::accepted_well_formed))]
    pub fn checked(bytes: &'a [u8]) -> Result<Image<'a>, Refusal>
        ensures { MatchResult result (λ image. Accepted bytes.now × (held image ≡ rows_of bytes.now)) (λ why. Verdict bytes.now (Err why)) }
    {
        let counts = check_image(bytes)?;
        let rows = ImageRows { bytes, counts };
        let blocks = rows.num_blocks() as u32;
        Ok(Image { rows, blocks })
    }

    /// The graph in the bytes, or an empty one where they are refused.
    #[tactic(auto, using(crate::proofs::Standing::stands, crate::proofs::Standing::means))]
    pub fn new(bytes: &'a [u8]) -> Image<'a>
        ensures rows { StandsFor bytes.now (held result) }
        ensures graph { Means bytes.now (flow_of (held result)) (layout_of (held result)) }
    {
        Image::checked(bytes).unwrap_or(empty())
    }
}
