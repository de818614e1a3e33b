//! Views of a graph: each shows the graph below it with some definitions changed, and is a graph again.
//!
//! Start at `specs/Redefined.antt`, which says what the views share, and at `specs/Pins.antt` and `specs/Originals.antt`, which
//! say what each shows.
#![tactic(auto)]

mod pin;
mod pinned;
mod resolved;

pub use pinned::Pinned;
pub use resolved::Resolved;
