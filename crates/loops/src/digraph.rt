ghost use Rattle.std.specs.Prelude.{◌≡◌, ℕ, List};
ghost use Rattle.ir.specs.Entities.{values};
ghost use Rattle.loops.specs.Digraph.{Finite};

use ir::{Operands, Value};

/// A directed graph over values, each with at most three targets: `steps` says which.
///
/// A target may lie past the nodes: it leads nowhere.
pub trait Digraph {
    ghost size: { Self → ℕ };

    ghost steps: { Self → ℕ → List ℕ };

    ghost finite: { (g : Self) → Finite (size g) (steps g) };

    /// How many nodes there are, 1,024 at most.
    fn num_nodes(&self) -> u32
        ensures { result ≡ size self.now };

    /// What one step from `v` leads to.
    fn targets(&self, v: Value) -> Operands
        ensures { values result ≡ steps self.now v.0 };
}
