ghost use Rattle.std.specs.Prelude.{◌≡◌, ◌<◌, ◌≤◌, MatchOption};

use ir::Value;
use std::marker::Model;

/// How many nodes a graph has at most.
pub(crate) const NODES: usize = 1024;

/// A value that can be a node, since it is below `NODES`.
#[derive(Clone, Copy, PartialEq, Eq, Default, Debug)]
pub(crate) struct Node {
    number: u16,
}

impl Model for Node {
    ghost use Rattle.std.specs.Prelude.{ℕ, ◌<◌};

    ghost Value = { ℕ };

    ghost view = { λ n. n.number };

    ghost invariant = { λ n. n.number < 1024 };

    ghost inverse = { λ n. record { number = n } };
}

impl Node {
    /// The node that `v` is in a graph with `size` nodes, none where it lies past them.
    #[inline]
    pub(crate) fn new(v: Value, size: u32) -> Option<Node>
        requires { size ≤ 1024 }
        ensures { MatchOption result (size ≤ v.0) (λ node. (node ≡ v.0) × (node < size)) }
    {
        if v.0 < size {
            Some(Node { number: v.0 as u16 })
        } else {
            None
        }
    }

    /// Its place in an array with a place for each node.
    #[inline]
    pub(crate) fn index(self) -> usize
        ensures value { result ≡ self }
        ensures in_bounds { result < 1024 }
    {
        usize::from(self.number)
    }
}

impl From<Node> for Value {
    ghost use Rattle.std.specs.Prelude.{◌≡◌};
    ghost use Rattle.ir.specs.Entities.{value};

    ghost from_gives = { λ node v. v ≡ value node };

    fn from(node: Node) -> Value {
        Value(u32::from(node.number))
    }
}
