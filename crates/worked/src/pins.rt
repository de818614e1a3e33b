// Pins: each refusal of one at its edge, and what is seen behind pins and behind resolved operands.
use crate::tell::{print_done, print_graph};
use anyhow::anyhow;
use building::Built;
use dfg::DataFlowGraph;
use flow::LaidOut;
use ir::{Block, Value};
use script::read_script;
use std::io;
use views::{Pinned, Resolved};

/// A variable and its alias, two other variables, and operations on them.
const GRAPH: &str = "\
make_block
append_block_param block0 i8
append_block_param block0 other
append_block_param block0 i64
append_inst block0 iconst 1 -> i8
clear_results inst0
change_to_alias v3 v0
append_inst block0 iadd v3 v0 -> i8
append_inst block0 select v3 v4 v0 -> i8
";

/// The name of a pin, the variable and the constant.
const PINS: [(&str, u32, i64); 10] = [
    ("pin of no value", 6, 0),
    ("pin of no value, out of every range", 6, -1),
    ("pin of an operation", 4, 0),
    ("pin of an operation, out of range", 4, 256),
    ("pin of no integer", 1, 2),
    ("pin above the range", 0, 256),
    ("pin below the range", 0, -1),
    ("pin of an alias", 3, 255),
    ("second pin", 0, 1),
    ("pin of 64 bits", 2, i64::MIN),
];

/// Prints a graph, and what defines each of its values.
fn print_view<G: LaidOut>(rt: &impl Print, name: &str, graph: &G) -> io::Result<()> {
    print!(rt; "{name}:")?;
    print_graph(rt, graph)?;
    for value in (0..graph.num_values()).map(Value) {
        match graph.value_def(value) {
            Ok(def) => println!(rt; "  {value} = {def}")?,
            Err(_) => println!(rt; "  {value} missing")?,
        }
    }
    Ok(())
}

/// Pins a variable through its alias, and prints what is seen behind each view.
pub(crate) fn through_alias(rt: &HostRuntime) -> anyhow::Result<()> {
    let Ok(calls) = read_script(rt.alloc(), GRAPH.as_bytes()) else {
        return Err(anyhow!("a case cannot be read"));
    };
    let Built { graph, .. } = building::build(rt.alloc(), calls.as_slice())?;
    let mut view = Pinned::new(graph);
    for (name, v, imm) in PINS {
        print_done(rt, name, view.pin(Value(v), imm))?;
    }
    print_view(rt, "behind pins", &view)?;
    print_view(rt, "behind both", &Resolved::new(view))?;
    Ok(())
}

/// The 16th pin, and the 17th.
pub(crate) fn seventeen(rt: &HostRuntime) -> anyhow::Result<()> {
    let mut graph = DataFlowGraph::new(rt.alloc())?;
    let _ = graph.make_block();
    for _ in 0..17 {
        let _ = graph.append_block_param(Block(0), 8);
    }
    let mut view = Pinned::new(graph);
    for v in 0..15 {
        let _ = view.pin(Value(v), 0);
    }
    print_done(rt, "16th pin", view.pin(Value(15), 0))?;
    print_done(rt, "17th pin", view.pin(Value(16), 0))?;
    print_done(rt, "second pin, and 17th", view.pin(Value(15), 0))?;
    Ok(())
}
