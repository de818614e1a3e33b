//! Flow graphs: the interface, what a graph means, the walk of a value and its number.
//!
//! Start at `specs/Meaning.antt`, which says what a graph means and which laws it keeps, and at `graph.rt` and `layout.rt`, the
//! questions that a graph answers.
//!
//! Proofs: the walk (`Walks`, what adds up over it in `Steps`, its places in `Places`), numbers (`Rounds`, `Unfolds`, `Range`, `Traps`),
//! paths and loops (`Paths`, `Loops`), layout order (`Orders`), and laws of lists (`Among`, `Sequences`).
#![tactic(auto)]

ghost use Rattle.flow.specs.Layout.{LayoutOrder};
ghost use Rattle.flow.specs.Meaning.{WidthTellsLive};
ghost use Rattle.flow.specs.Number.{NoneWhereTrapped, NumbersInRange, NumberUnfolds};
ghost use Rattle.flow.specs.Walk.{ReachIsTransitive, ReachUnfolds, StepsCount, StepsFew, Unfolds, WalkIsPostOrder, WalkIsTopological};

pub mod definition;
pub mod graph;
pub mod layout;
pub mod queries;

pub use definition::ValueDef;
pub use graph::FlowGraph;
pub use layout::LaidOut;
pub use queries::{is_live, is_variable, original, value_args, value_definition};

/// A value is live exactly where its width is not 0.
pub fn widths_stand()
    ensures { WidthTellsLive }
{}

/// A value reaches itself and what the values that it uses reach. The walk is what its definition says, and is a post-order
/// of what the value reaches. Its steps are 1 + the values reached + the operands of the operations reached.
pub fn walk_stands()
    ensures reach_transitive { ReachIsTransitive }
    ensures reach_unfolds { ReachUnfolds }
    ensures unfolds { Unfolds }
    ensures post_order { WalkIsPostOrder }
    ensures topological { WalkIsTopological }
    ensures steps { StepsCount }
    ensures few_steps { StepsFew }
{}

/// The number of a value follows from the numbers of the values that it uses, fits the value's width if the inputs fit theirs, and is
/// missing exactly where an operation that the value reaches traps.
pub fn numbers_stand()
    ensures unfolds { NumberUnfolds }
    ensures in_range { NumbersInRange }
    ensures trapped { NoneWhereTrapped }
{}

/// Layout order has each instruction once, by block number and then by instruction number.
pub fn layout_order_stands()
    ensures { LayoutOrder }
{}
