//! The building calls of a data-flow graph as values: what a caller asks, and what a call answers.
//!
//! Opcodes, conditions and types come as the numbers that the caller gave, and so do the counts of operands and
//! results, since a call is refused where one of them is wrong.
#![tactic(auto)]

pub mod answer;
pub mod call;
mod print;

pub use answer::Answer;
pub use call::{BuildCall, NewInst};
