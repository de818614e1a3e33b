//! Reads a script of building calls: text, one call to a line.
//!
//! Lines end in a line feed, which the last may lack. The words of a line are separated by one or more spaces, tabs
//! or carriage returns. A line without words, or whose first word begins with `#`, is skipped. Every other line is one
//! building call:
//!
//! ```text
//! make_block
//! append_block_param BLOCK TYPE
//! append_inst BLOCK OPCODE {ITEM} -> {TYPE}
//! clear_results INST
//! change_to_alias VALUE VALUE
//! resolve_all_aliases
//! ```
//!
//! `{ITEM}` and `{TYPE}` stand for any number of words, none too. The first value of `change_to_alias` is the
//! destination, and the second the source.
//!
//! | Word | What it is |
//! |---|---|
//! | `BLOCK` | `block` and a number, as `block0` |
//! | `INST` | `inst` and a number, as `inst12` |
//! | `VALUE` | `v` and a number, as `v3` |
//! | `TYPE` | `i8`, `i16`, `i32`, `i64`, `other`, which is type number 1, or a number below 65,536 |
//! | `OPCODE` | an opcode's name, as `iadd` or `sadd_sat`, or its code, a number below 256 |
//! | `ITEM` | an operand, an immediate or a condition |
//!
//! The numbers of blocks, instructions and values lie below 2^32. A number is written by decimal digits alone; zeros
//! in front do not matter.
//!
//! | Item | How it is written |
//! |---|---|
//! | an operand | a `VALUE`; the operands come in their order, and there may be any number of them |
//! | an immediate | a number, or `-` and a number, within 64 bits with a sign; at most one, 0 where there is none |
//! | a condition | its name, `eq ne slt sge sgt sle ult uge ugt ule`, or `cc` and its code, a number below 256, as `cc2`; at most one, code 0 where there is none |
//!
//! The items come in any order, and the arrow `->` always stands behind them, even where no type follows.
//!
//! The calls carry the numbers that were written. Whether an opcode, a type, a condition or an entity exists, and whether the
//! counts are right, is for the graph to judge, and not for the reader: so a script can ask for what is refused.
//!
//! `specs/` says all this once more, as a grammar over bytes: `Text` the lines and words, `Numbers` the numbers and
//! entities, `Names` the names, `Script` the calls and the lines. [`read_script`] is proved to answer what `script_of`
//! there says of the text, whatever the text, unless memory runs out. [`script_stands`] is the theorem that every list of
//! calls whose numbers fit their types can be written, and reads as itself; `Spelled` says how it is written. `Printed` says
//! how a [`ScriptError`] is told.
#![tactic(auto)]

pub mod error;
mod items;
pub mod laws;
mod line;
mod names;
mod numbers;
pub mod pin;
pub mod script;
pub mod text;

pub use error::ScriptError;
pub use laws::script_stands;
pub use numbers::read_value;
pub use pin::read_pin;
pub use script::read_script;
pub use text::line_at;
