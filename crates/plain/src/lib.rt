//! The plain graph: what building calls mean, by their arguments alone.
//!
//! `specs/Feed.antt` is the place to start: the checks of each call in their order, the rows after it, and its answer.
//! This crate has no code of its own but the statements that hold of every plain graph; `dfg` proves its graph equal to it.
//!
//! Proofs: every plain graph is well-formed (`Always`), since each call keeps it so (`Kept`): those that add rows (`Steps`, `Growth`) and
//! those that change them (`Changes`, `Chains`), once no check refuses them (`Accepted`). No call makes a loop (`NoLoops`, `Loops`), and an
//! alias is refused for one exactly where it would (`AliasLoops`, `Through`, `Reaching`). `Feeding` and `Sweeping` serve `building` and `dfg`.
#![tactic(auto)]

ghost use Rattle.plain.specs.Theorems.{StaysWellFormed, AlwaysLawful, AliasesJudged};

/// Whatever building calls are fed to it, the plain graph keeps all laws, and a new alias is judged by the loops it would make.
pub fn plain_graph_stands()
    ensures well_formed { StaysWellFormed }
    ensures lawful { AlwaysLawful }
    ensures aliases { AliasesJudged }
{}
