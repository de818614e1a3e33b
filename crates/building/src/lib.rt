//! Building calls as values, done on a data-flow graph: one of them, or a list from an empty graph.
#![tactic(auto)]

mod list;
mod one;

pub use list::{Built, build};
pub use one::apply;
