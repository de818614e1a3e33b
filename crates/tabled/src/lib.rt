//! A laid-out graph by its answers, which are asked for once and kept in tables.
//!
//! It means what the graph means that was asked (`Tabled::of`), and answers each question but the count of blocks by one look into a table,
//! whatever it costs the other graph. A harvest asks the same question of a value for every root that reaches it.
#![tactic(auto)]

mod queries;
mod reading;
mod tabled;

pub use tabled::Tabled;
