// The search for the next root.
ghost use Rattle.std.specs.Prelude.{◌≡◌, ◌<◌, ◌≤◌, length, take, ◌==◌, MatchOption};
ghost use Rattle.flow.specs.Layout.{inst_at, in_block};
ghost use Rattle.harvest.specs.Candidates.{FoundFrom};

use crate::place::Place;
use crate::root::root_at;
use flow::LaidOut;
use ir::{Block, Inst, Value};
use walk::MARKS;

/// How far a block was passed: `index` of its instructions have numbers below `inst`.
#[derive(Clone, Copy, PartialEq, Eq, Debug)]
pub(crate) struct Passed {
    pub inst: u32,
    pub index: u32,
}

impl Passed {
    /// Nothing was passed.
    pub(crate) const NOTHING: Passed = Passed { inst: 0, index: 0 };
}

/// A root that a search found, the place behind it, and the number behind its instruction's.
#[derive(Clone, Copy, PartialEq, Eq, Debug)]
pub(crate) struct Found {
    pub root: Value,
    pub next: Place,
    pub inst: u32,
}

/// Whether an instruction stands in a block.
fn stands_in<G: LaidOut>(graph: &G, inst: Inst, block: Block) -> bool
    ensures { inst.0 < length (G.layout graph.now).insts → result ≡ ((inst_at (G.layout graph.now) inst.0).block.0 == block.0) }
{
    graph.inst_block(inst).is_ok_and(|b| b == block)
}

/// The first root in layout order from a place on, where its block was passed so far.
pub(crate) fn find_root<G: LaidOut>(
    graph: &G,
    from: Place,
    passed: Passed,
    marks: &mut [u8; MARKS],
) -> Option<Found>
    requires passed { passed.index ≡ length (in_block from.block (take passed.inst (G.layout graph.now).insts)) }
    requires before { passed.index ≤ from.index }
    ensures found { FoundFrom (G.FlowGraph.meaning graph.now) (G.layout graph.now) from result }
    ensures passed { MatchOption result (Unit {0}) (λ f. f.next.index ≡ length (in_block f.next.block (take f.inst (G.layout graph.now).insts))) }
{
    let blocks = graph.num_blocks();
    let insts = graph.num_insts();
    let found = 'search: {
        for block in from.block..blocks {
            let (first, start) = if block == from.block {
                (from.index, passed)
            } else {
                (0, Passed::NOTHING)
            };
            let mut index = start.index;
            for inst in start.inst..insts {
                if stands_in(graph, Inst(inst), Block(block)) {
                    if index >= first {
                        if let Some(root) = root_at(graph, Inst(inst), marks) {
                            let next = Place::behind(block, index);
                            let inst = inst + 1;
                            break 'search Some(Found { root, next, inst });
                        }
                    }
                    index += 1;
                }
            }
        }
        None
    };
    found
}
