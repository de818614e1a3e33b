// The last stage of the check: what goes round in rows.
ghost use Rattle.std.specs.Prelude.{MatchOption};
ghost use Rattle.image.specs.Held.{rows_in};
ghost use Rattle.image.specs.Verdict.{JudgedByRounds, LowestRound, NothingGoesRound};

use crate::digraphs::{Aliases, Leanings, Uses};
use crate::image_rows::ImageRows;
use ir::{Cause, Refusal, Value};
use loops::{is_loopless, lowest_in_loop};

impl ImageRows<'_> {
    /// The lowest value that goes round: its aliases lead back to it, or it uses itself.
    ///
    /// In rows where nothing does, none leans on itself, and that is seen in one search.
    #[tactic(auto, using(crate::proofs::GoingRound::lower_round, crate::proofs::GoingRound::alias_round, crate::proofs::GoingRound::use_round))]
    fn lowest_round(self) -> Option<Value>
        ensures { MatchOption result (NothingGoesRound (rows_in self.entry.bytes.now self.entry.counts)) (λ v. LowestRound (rows_in self.entry.bytes.now self.entry.counts) v.0) }
    {
        if is_loopless(&Leanings(self)) {
            return None;
        }
        match (lowest_in_loop(&Aliases(self)), lowest_in_loop(&Uses(self))) {
            (Some(v), Some(w)) => Some(Value(v.0.min(w.0))),
            (Some(v), None) => Some(v),
            (None, user) => user,
        }
    }

    /// Refuses rows in which something goes round, and names the lowest value that does.
    pub(crate) fn check_rounds(self) -> Result<(), Refusal>
        ensures { JudgedByRounds (rows_in self.entry.bytes.now self.entry.counts) result }
    {
        match self.lowest_round() {
            None => Ok(()),
            Some(v) => Err(Refusal {
                cause: Cause::Loop,
                place: v.0,
            }),
        }
    }
}
