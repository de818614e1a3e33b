ghost use Rattle.std.specs.Prelude.{◌≡◌, ◌+◌, ◌*◌, ◌≤◌, true, length, take, slice_index_or};
ghost use Rattle.arrayvec.specs.ArrayVec.{array_vec_len};
ghost use Rattle.loops.specs.declared.dfs.TheConstants.{STACK_LEN};
ghost use Rattle.loops.specs.Ranks.{is_new, unopened};
ghost use Rattle.loops.specs.declared.dfs.State.TheVariants.{New};

use crate::digraph::Digraph;
use crate::node::{NODES, Node};
use arrayvec::ArrayVec;
use ir::Value;

/// How many entries the stack can have: the targets of each node that is opened, three at most.
const STACK_LEN: usize = 3 * NODES;

/// How far a search has come with a node.
#[derive(Clone, Copy, PartialEq, Eq, Debug)]
pub(crate) enum State {
    /// It has not come to it.
    New,
    /// It has come to it, and goes through what it leads to.
    Open,
    /// It has left it, and given it a rank.
    Finished,
}

/// A depth-first search of a graph, which ranks each node as it is finished, so after what it leads to.
// Nothing compares or prints a search.
#[derive(Drop)]
pub(crate) struct Dfs<'a, G> {
    graph: &'a G,
    /// How many nodes the graph has.
    size: u32,
    // Arrays with a place for each node: a search allocates nothing. The ranks stand apart, since a search whose states held them
    // took longer.
    states: [State; NODES],
    /// How many nodes were finished before a node, 0 for one that is not finished.
    ranks: [u16; NODES],
    /// The rank of the node that is finished next.
    next: u16,
    stack: ArrayVec<Node, STACK_LEN>,
    ghost few: { size ≤ 1024 },
    ghost room: { array_vec_len stack + 3 * unopened states ≤ STACK_LEN },
}

impl<'a, G: Digraph> Dfs<'a, G> {
    /// Each node is new.
    pub(crate) fn new(graph: &'a G) -> Self
        ensures { result.size ≡ G.size graph.now }
    {
        Dfs {
            graph,
            size: graph.num_nodes(),
            states: [State::New; NODES],
            ranks: [0; NODES],
            next: 0,
            stack: ArrayVec::new(),
        }
    }

    /// Ranks every node, each one that has no rank yet with what it leads to.
    pub(crate) fn rank_all(&mut self)
        ensures { self.new.size ≡ self.old.size }
    {
        let size = self.size;
        for v in 0..size {
            if let Some(root) = Node::new(Value(v), size)
                && self.is_new(root)
            {
                self.rank_from(root);
            }
        }
    }

    /// The ranks of the nodes.
    pub(crate) fn ranks(&self) -> &[u16]
        ensures value { result.now ≡ take self.now.size self.now.ranks }
        ensures len { length result.now ≡ self.now.size }
    {
        &self.ranks[..self.size as usize]
    }

    /// Ranks `root`, which is new, and what it leads to, where that has no rank yet.
    ///
    /// A node is finished when the search comes back to it, after the targets that were pushed on top of it. So without
    /// loops each target has a lower rank. The root is not pushed: the search comes back to it when the stack is empty.
    fn rank_from(&mut self, root: Node)
        requires { is_new (slice_index_or self.old.states root New) ≡ true }
        ensures { self.new.size ≡ self.old.size }
    {
        self.open(root);
        while let Some(v) = self.stack.last().copied() {
            match self.states[v.index()] {
                State::New => self.open(v),
                State::Open => {
                    self.stack.pop();
                    self.finish(v);
                }
                State::Finished => {
                    self.stack.pop();
                }
            }
        }
        self.finish(root);
    }

    /// Opens `v`, and pushes its targets that are new.
    fn open(&mut self, v: Node)
        requires { is_new (slice_index_or self.old.states v New) ≡ true }
        ensures stack { array_vec_len self.new.stack ≤ array_vec_len self.old.stack + 3 }
        ensures states { unopened self.new.states + 1 ≡ unopened self.old.states }
        ensures size { self.new.size ≡ self.old.size }
    {
        self.states[v.index()] = State::Open;
        for w in self.graph.targets(v.into()) {
            if let Some(node) = Node::new(w, self.size)
                && self.is_new(node)
            {
                self.stack.push(node);
            }
        }
    }

    /// Leaves `v`, and gives it the next rank.
    #[tactic(auto, using(crate::proofs::Unopened::no_more))]
    fn finish(&mut self, v: Node)
        ensures stack { self.new.stack ≡ self.old.stack }
        ensures states { unopened self.new.states ≤ unopened self.old.states }
        ensures size { self.new.size ≡ self.old.size }
    {
        let rank = self.next;
        // Each node is finished once, so no rank reaches 1,024; nothing rests on it.
        self.next = rank.saturating_add(1);
        self.ranks[v.index()] = rank;
        self.states[v.index()] = State::Finished;
    }

    /// Whether the search has not come to `node`.
    fn is_new(&self, node: Node) -> bool
        ensures { result ≡ is_new (slice_index_or self.now.states node New) }
    {
        self.states[node.index()] == State::New
    }
}
