//! The data-flow graph of a function, and the calls that build it.
//!
//! Start at `building.rt`: each call, equal to the plain graph fed the same call. `queries.rt` answers the questions of
//! `flow::FlowGraph` and `flow::LaidOut`. Below them, `tables.rt` holds the rows, `reads.rt` reads them, `checks.rt` and
//! `decode.rt` say why a call is refused, `edits.rt` changes rows, and `alias_loops.rt` with `finders.rt` walks the graph for
//! the loops of a new alias.
#![tactic(auto)]

pub mod alias_loops;
mod building;
mod checks;
mod decode;
pub mod dfg;
mod edits;
pub mod finders;
pub mod queries;
mod reads;
mod tables;

pub use dfg::DataFlowGraph;
