ghost use Rattle.std.specs.Prelude.{◌≡◌, true, Decides};
ghost use Rattle.std.specs.List.{list_all};
ghost use Rattle.ir.specs.Entities.{values};
ghost use Rattle.flow.specs.Loops.{Loopless};
ghost use Rattle.loops.specs.Ranks.{is_lower, RanksFall};

use crate::dfs::Dfs;
use crate::digraph::Digraph;
use crate::lowest::lowest_in_loop;
use ir::{Operands, Value};

/// Whether `w` is no node, or has a lower rank than `v`.
#[tactic(auto, unfolding(crate::specs::Ranks::is_below))]
fn is_lower(ranks: &[u16], v: Value, w: Value) -> bool
    ensures { result ≡ is_lower ranks.now v.0 w.0 }
{
    match (ranks.get(w.0 as usize), ranks.get(v.0 as usize)) {
        (None, _) => true,
        (Some(rank), Some(bound)) => rank < bound,
        (Some(_), None) => false,
    }
}

/// Whether each of the targets is no node, or has a lower rank than `v`.
fn all_lower(ranks: &[u16], v: Value, targets: Operands) -> bool
    ensures { result ≡ list_all (is_lower ranks.now v.0) (values targets) }
{
    targets.iter().all(|w| is_lower(ranks, v, w))
}

/// Whether the ranks fall along every step from node to node.
fn ranks_fall<G: Digraph>(graph: &G, ranks: &[u16]) -> bool
    ensures { Decides result (RanksFall (G.steps graph.now) ranks.now) }
{
    (0..graph.num_nodes())
        .map(Value)
        .all(|v| all_lower(ranks, v, graph.targets(v)))
}

/// Whether ranks from one depth-first search show that there is no loop.
fn has_falling_ranks<G: Digraph>(graph: &G) -> bool
    ensures { result ≡ true → Loopless (G.steps graph.now) }
{
    let mut dfs = Dfs::new(graph);
    dfs.rank_all();
    ranks_fall(graph, dfs.ranks())
}

/// Whether there is no loop.
///
/// A graph without loops is gone through once, to rank its nodes, and once more, to see that the ranks fall along every
/// step. Only where they do not is each node asked whether it reaches itself.
pub fn is_loopless<G: Digraph>(graph: &G) -> bool
    ensures { Decides result (Loopless (G.steps graph.now)) }
{
    has_falling_ranks(graph) || lowest_in_loop(graph).is_none()
}
