//! Loops of a directed graph over values: the lowest value in one, and whether there is none.
//!
//! Start at `digraph.rt`, the questions that a graph answers, and at `specs/Digraph.antt`, which says what the answers here mean.
#![tactic(auto)]

mod dfs;
mod digraph;
mod loopless;
mod lowest;
mod met;
mod node;

pub use digraph::Digraph;
pub use loopless::is_loopless;
pub use lowest::lowest_in_loop;
