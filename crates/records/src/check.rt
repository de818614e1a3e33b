ghost use Rattle.std.specs.Prelude.{◌≡◌};
ghost use Rattle.ir.specs.Refusals.{answer_unless, first_fault};
ghost use Rattle.records.specs.Faults.{records_refusal, record_fault, counts_of};
ghost use Rattle.records.specs.Fields.{record_count};

use crate::numbered::Numbered;
use ir::Refusal;

/// How many records of each kind an image has.
#[derive(Clone, Copy, PartialEq, Eq, Debug)]
pub struct Counts {
    pub values: u32,
    pub insts: u32,
}

/// Looks at each record in order, and names the first that is refused.
fn check_each(image: &Numbered) -> Result<(), Refusal>
    ensures { result ≡ answer_unless (first_fault (record_fault image.now.bytes.now) 0 (record_count image.now.bytes.now)) tt }
{
    // A record goes by its number, which is the refusal's place: nothing is indexed. One loop for this and the check of widths
    // would be a public call that asks something of its closure, and none here asks anything.
    for number in 0..image.num_records() {
        let place = number as u32;
        image
            .judged(number)
            .check()
            .map_err(|cause| Refusal { cause, place })?;
    }
    Ok(())
}

/// Looks at each record of an image by itself and at what it names: how many records of each kind there are, or the
/// first refusal.
#[tactic(auto, using(crate::proofs::Clean::not_whole, crate::proofs::Clean::whole))]
pub fn check_records(bytes: &[u8]) -> Result<Counts, Refusal>
    ensures { result ≡ answer_unless (records_refusal bytes.now) (counts_of bytes.now) }
{
    let image = Numbered::of(bytes)?;
    check_each(&image)?;
    Ok(image.counts())
}
