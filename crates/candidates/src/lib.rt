//! From what a caller has to candidates, and to their text, in one call each.
//!
//! The contracts of `harvest_calls` and `harvest_image` join what is promised of building, of images and of the harvest: the
//! candidates are those of the graph that the calls or the bytes mean (`specs/Candidates.antt`).
#![tactic(auto)]

mod error;
mod from_calls;
mod from_image;
mod texts;

pub use error::Error;
pub use from_calls::{HarvestedCalls, harvest_calls};
pub use from_image::{HarvestedImage, harvest_image};
pub use texts::candidate_text;
