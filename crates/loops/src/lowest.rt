ghost use Rattle.std.specs.Prelude.{◌≡◌, Decides};
ghost use Rattle.flow.specs.Loops.{Path};
ghost use Rattle.loops.specs.Digraph.{LowestLoop};
ghost use Rattle.loops.specs.Meeting.{Reached};

use crate::digraph::Digraph;
use crate::met::Met;
use ir::Value;

/// Meets the nodes that `start` reaches in one step or more, and no others. What was met before is forgotten.
fn search_from<G: Digraph>(graph: &G, start: Value, met: &mut Met)
    requires { met.old.size ≡ G.size graph.now }
    ensures reached { Reached (G.size graph.now) (G.steps graph.now) start.0 met.new.nodes }
    ensures size { met.new.size ≡ met.old.size }
{
    met.clear();
    met.insert_all(graph.targets(start));
    // The list grows while it is gone through, so it is read by place: an iterator would borrow it.
    let mut done = 0;
    while let Some(u) = met.get(done) {
        met.insert_all(graph.targets(u.into()));
        done += 1;
    }
}

/// Whether `v` reaches itself. `met` holds what the search for it meets, and what was met before is forgotten.
fn is_in_loop<G: Digraph>(graph: &G, v: Value, met: &mut Met) -> bool
    requires { met.old.size ≡ G.size graph.now }
    ensures value { Decides result (Path (G.steps graph.now) v.0 v.0) }
    ensures size { met.new.size ≡ met.old.size }
{
    search_from(graph, v, met);
    met.contains(v)
}

/// The lowest value in a loop, none where there is no loop.
pub fn lowest_in_loop<G: Digraph>(graph: &G) -> Option<Value>
    ensures { LowestLoop (G.steps graph.now) result }
{
    let size = graph.num_nodes();
    // One search after another uses the same marks, since new ones for each node would cost more than most searches. So
    // this is a loop: a closure in `find` would change them.
    let mut met = Met::new(size);
    for v in 0..size {
        if is_in_loop(graph, Value(v), &mut met) {
            return Some(Value(v));
        }
    }
    None
}
