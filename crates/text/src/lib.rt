//! A candidate as text in the caller's buffer.
//!
//! `specs/Text.antt` is the grammar; `write_candidate` writes it.
#![tactic(auto)]

ghost use Rattle.text.specs.Worked.{SumText, ChoiceText};

pub mod buffer;
pub mod candidate;
pub mod lines;

pub use candidate::{is_name, text_len, write_candidate};

/// Two worked candidates have these very texts.
#[tactic(auto, using(crate::proofs::Worked::sum_text, crate::proofs::Worked::choice_text))]
pub fn texts_stand()
    ensures sum { SumText }
    ensures choice { ChoiceText }
{}
