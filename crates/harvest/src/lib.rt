//! The search for candidates: left-hand sides for Souper, of one value, of the next root from a place, of a whole graph.
//!
//! Start at `do_souper_harvest` in `harvest.rt` and at `specs/Harvest.antt`, which says what a harvest is; `candidate.rt` has one step
//! of it, and `one.rt` the harvest of one value. `specs/Roots.antt` says which values have a candidate, `specs/Written.antt` what its
//! rows and counts are.
#![tactic(auto)]

ghost use Rattle.harvest.specs.Roots.{RootsReachTwo, RootsFromTheStart};

mod candidate;
mod counter;
mod forms;
mod harvest;
mod lent;
mod one;
mod place;
mod root;
mod search;
mod translate;
mod translator;
mod under_way;
mod value;
mod value_rows;
mod written;

pub use candidate::{Candidate, next_candidate};
pub use harvest::{Lhs, do_souper_harvest};
pub use one::harvest_candidate_lhs;
pub use place::Place;
pub use under_way::Harvest;
pub use value::translate_value;
pub use written::{ROWS, Written};

/// The roots are the integers that reach two counted operations or more, themselves included; and from the first place on come all of
/// a graph, in layout order.
pub fn roots_stand()
    ensures reach { RootsReachTwo }
    ensures from_the_start { RootsFromTheStart }
{}
