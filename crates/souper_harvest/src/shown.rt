// What is printed of a graph: itself, if that was asked for, and its candidates.
use crate::candidate::print_candidates;
use crate::number::print_number;
use crate::options::Options;
use crate::report::{print_graph, print_pin, tell_pin};
use flow::LaidOut;
use harvest::{Lhs, do_souper_harvest};
use views::{Pinned, Resolved};

/// Prints a graph and its candidates.
pub(crate) fn show<G: LaidOut>(
    rt: &HostRuntime,
    graph: &G,
    candidates: &[Lhs],
    options: &Options,
) -> anyhow::Result<()> {
    if options.is_listed {
        print_graph(rt, graph)?;
    }
    if let Some(value) = options.evaluated {
        return print_number(rt, graph, value, options);
    }
    print_candidates(rt, candidates, options.function.as_str())?;
    let insts = graph.num_insts();
    let count = candidates.len();
    eprintln!(rt; "{insts} instructions, {count} candidates")?;
    Ok(())
}

/// Prints the pins with their answers, and a graph and its candidates as they are behind the views.
pub(crate) fn show_behind<G: LaidOut + Drop>(
    rt: &HostRuntime,
    graph: G,
    options: &Options,
) -> anyhow::Result<()> {
    let mut pinned = Pinned::new(graph);
    for (value, imm) in options.view.pins.iter().copied() {
        let answer = pinned.pin(value, imm);
        if options.is_listed {
            print_pin(rt, value, imm, answer)?;
        } else {
            tell_pin(rt, value, imm, answer)?;
        }
    }
    if options.view.is_resolved {
        return harvest_shown(rt, &Resolved::new(pinned), options);
    }
    harvest_shown(rt, &pinned, options)
}

/// Harvests a graph, and prints it and its candidates.
fn harvest_shown<G: LaidOut>(rt: &HostRuntime, graph: &G, options: &Options) -> anyhow::Result<()> {
    let candidates = do_souper_harvest(rt.alloc(), graph)?;
    show(rt, graph, candidates.as_slice(), options)
}
