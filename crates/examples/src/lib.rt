//! Worked graphs: from the calls that build them to their candidates and numbers, and what calls answer.
//!
//! `specs/` has three tables, and what it takes for an entry of each to hold. This crate has no code of its own.
#![tactic(auto)]

ghost use Rattle.examples.specs.Answers.{AnswersHold};
ghost use Rattle.examples.specs.Candidates.{ExamplesHold, HarvestIsListed};
ghost use Rattle.examples.specs.Numbers.{RunsHold};

/// Each entry of the tables holds: the candidates of each graph, the numbers of each run, and the answer of each call.
/// A harvest of a graph has the candidates of its entry.
pub fn examples_stand()
    ensures candidates { ExamplesHold }
    ensures harvested { HarvestIsListed }
    ensures numbers { RunsHold }
    ensures answers { AnswersHold }
{}
