//! An image: a laid-out graph in the caller's bytes.
//!
//! Start at `check.rt`, the check of bytes as a whole, and at `specs/Verdict.antt`, which says what it answers. The check has
//! three stages: the records one by one (the crate `records`), the widths and immediates of the rows that they hold
//! (`widths.rt`, over `image_rows.rt`), and what goes round among the rows (`rounds.rt`, over the graphs of `digraphs.rt`).
//! `specs/Theorems.antt` says which bytes are accepted.
//!
//! `reading.rt` makes an `Image` of bytes, and `queries.rt` answers the questions of `flow::FlowGraph` and `flow::LaidOut` of it
//! from the bytes, with nothing copied. `specs/Graph.antt` says which graph bytes mean.
//!
//! Proofs: which bytes are accepted (`Accepting`, `Standing`), stage by stage (`Stages`): records (`Fitting`, `Held`, `Naming`) and what goes
//! round (`GoingRound`).
#![tactic(auto)]

mod blocks;
mod check;
mod digraphs;
pub mod graph;
mod image_rows;
mod laws;
pub mod queries;
mod reading;
mod rounds;
mod widths;

pub use check::check_image;
pub use graph::Image;
pub use laws::image_stands;
