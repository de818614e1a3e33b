//! The operations as code, at any width from 1 to 64 bits.
//!
//! Start at `operations.rt`, the IR's operations, and at `words.rt`, Souper's words. Both take any numbers of 64 bits, whether they
//! fit the width or not, and answer what the definitions say of them.
#![tactic(auto)]

mod compare;
mod counts;
mod division;
mod extend;
mod numbers;
mod operations;
mod reversal;
mod saturating;
mod shifts;
mod width;
mod words;
mod wrapping;

pub use numbers::number_at;
pub use operations::compute;
pub use width::Width;
pub use words::apply;
