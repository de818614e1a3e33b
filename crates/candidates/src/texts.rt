ghost use Rattle.std.specs.Prelude.{◌≡◌, true, false, Err, IfOk, vec_items};
ghost use Rattle.ir.specs.declared.refusal.Refusal.{Refusal};
ghost use Rattle.ir.specs.Refusals.{because};
ghost use Rattle.ir.specs.declared.refusal.Cause.TheVariants.{BadName};
ghost use Rattle.text.specs.Checks.{is_name};
ghost use Rattle.text.specs.Text.{text_of};
ghost use Rattle.candidates.specs.declared.error.Error.TheVariants.{Refused};

use crate::error::Error;
use harvest::Lhs;
use std::alloc::Global;
use text::{text_len, write_candidate};

/// The text of a candidate of the function with this name: refused where the name is not fit, and only there.
#[tactic(auto, using(crate::proofs::Named::only_the_name, crate::proofs::Named::written_name))]
pub fn candidate_text(heap: Global, lhs: &Lhs, name: &[u8]) -> Result<Vec<u8>, Error>
    ensures text { IfOk result (λ text. text.items ≡ text_of lhs.now.root name.now (vec_items lhs.now.rows)) }
    ensures named { IfOk result (λ text. is_name name.now ≡ true) }
    ensures refused { (why : Refusal) → result ≡ Err (Refused why) → (is_name name.now ≡ false) × (why ≡ because BadName) }
{
    let rows = lhs.rows.as_slice();
    let mut text = vec![in heap; 0; text_len(lhs.root, name, rows)]?;
    write_candidate(text.as_mut_slice(), lhs.root, name, rows)?;
    Ok(text)
}
