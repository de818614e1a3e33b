//! The instructions of the IR: entities, opcodes, integer condition codes, value types, and why a call is refused.
//!
//! `specs/Codes.antt` has every number, name and word; `specs/Operations.antt` what each operation computes, at any width.
//!
//! Proofs: codes and their cases (`Decoding`, `OneToOne`), operands and widths (`Signatures`, `Limits`), the numbers that operations
//! compute (`Range`, `Immediates`), checks and what they answer (`Answered`, `Faults`, `Options`).
#![tactic(auto)]

pub mod codes;
pub mod condcodes;
pub mod constraints;
pub mod entities;
pub mod instructions;
pub mod opcodes;
pub mod refusal;
pub mod types;
pub mod words;

pub use codes::codes_stand;
pub use condcodes::IntCC;
pub use constraints::{OpcodeConstraints, constraints_stand};
pub use entities::{Block, Inst, Value};
pub use instructions::{Args, Operands};
pub use opcodes::Opcode;
pub use refusal::{Cause, Refusal, ensure, ensure_length};
pub use types::Type;
pub use words::Word;
