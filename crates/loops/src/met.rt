ghost use Rattle.std.specs.Prelude.{◌≡◌, ◌≤◌, false, [], ◌++◌, length, drop, replicate, slice_get};
ghost use Rattle.ir.specs.Entities.{values};
ghost use Rattle.flow.specs.Meaning.{has};
ghost use Rattle.loops.specs.Meeting.{meet, meet_all};

use crate::node::{NODES, Node};
use arrayvec::ArrayVec;
use ir::{Operands, Value};
use std::marker::Model;

/// The nodes of a graph that a search has met, each once, in the order in which it met them.
#[derive(Debug, Drop)]
pub(crate) struct Met {
    /// How many nodes the graph has.
    size: u32,
    // An array with a place for each node: a search allocates nothing.
    /// Whether each node was met.
    marks: [bool; NODES],
    nodes: ArrayVec<Node, NODES>,
}

impl Model for Met {
    ghost use Rattle.loops.specs.Meeting.{Meeting, Kept};

    ghost Value = { Meeting };

    ghost view = { λ m. record { size = m.size; nodes = m.nodes.items } };

    ghost invariant = { λ m. Kept m.size m.marks m.nodes.items };
}

/// Takes the marks off the first `size` places.
fn unmark(marks: &mut [bool; NODES], size: usize)
    requires { size ≤ 1024 }
    ensures { marks.new ≡ replicate size false ++ drop size marks.old }
{
    marks[..size].fill(false);
}

impl Met {
    /// Nothing is met yet, in a graph with `size` nodes.
    pub(crate) fn new(size: u32) -> Met
        requires { size ≤ 1024 }
        ensures size { result.size ≡ size }
        ensures nodes { result.nodes ≡ [] }
    {
        Met {
            size,
            marks: [false; NODES],
            nodes: ArrayVec::new(),
        }
    }

    /// Forgets what was met.
    ///
    /// Only places below the size are marked, so in a small graph this costs little, and each search can use one `Met`.
    pub(crate) fn clear(&mut self)
        ensures size { self.new.size ≡ self.old.size }
        ensures nodes { self.new.nodes ≡ [] }
    {
        unmark(&mut self.marks, self.size as usize);
        self.nodes.clear();
    }

    /// Whether `w` was met.
    pub(crate) fn contains(&self, w: Value) -> bool
        ensures { result ≡ has self.now.nodes w.0 }
    {
        self.marks.get(w.0 as usize).copied().unwrap_or(false)
    }

    /// Meets `w`, if it is a node that was not met before.
    #[tactic(auto, unfolding(crate::specs::Meeting::meet))]
    pub(crate) fn insert(&mut self, w: Value)
        ensures size { self.new.size ≡ self.old.size }
        ensures nodes { self.new.nodes ≡ meet self.old.size self.old.nodes w.0 }
    {
        if let Some(node) = Node::new(w, self.size)
            && !self.marks[node.index()]
        {
            self.marks[node.index()] = true;
            self.nodes.push(node);
        }
    }

    /// Meets each of the targets, in order.
    pub(crate) fn insert_all(&mut self, targets: Operands)
        ensures size { self.new.size ≡ self.old.size }
        ensures nodes { self.new.nodes ≡ meet_all self.old.size self.old.nodes (values targets) }
    {
        for w in targets {
            self.insert(w);
        }
    }

    /// The node that was met after `k` others.
    pub(crate) fn get(&self, k: usize) -> Option<Node>
        ensures value { result ≡ slice_get self.now.nodes k }
        ensures few { length self.now.nodes ≤ 1024 }
    {
        self.nodes.get(k).copied()
    }
}
