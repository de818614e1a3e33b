// The edges that a script would be long for: full tables, and short marks.
use crate::tell::print_done;
use calls::NewInst;
use dfg::DataFlowGraph;
use ir::{Block, Inst, Opcode, Value};
use std::alloc::{AllocError, Global};
use std::io;

/// The 64th block, and the 65th.
pub(crate) fn blocks(rt: &HostRuntime) -> anyhow::Result<()> {
    let mut graph = DataFlowGraph::new(rt.alloc())?;
    for _ in 0..63 {
        let _ = graph.make_block();
    }
    print_done(rt, "64th block", graph.make_block())?;
    print_done(rt, "65th block", graph.make_block())?;
    Ok(())
}

/// The 1,024th value, and the 1,025th.
pub(crate) fn values(rt: &HostRuntime) -> anyhow::Result<()> {
    let mut graph = DataFlowGraph::new(rt.alloc())?;
    let _ = graph.make_block();
    for _ in 0..1023 {
        let _ = graph.append_block_param(Block(0), 8);
    }
    print_done(rt, "1024th value", graph.append_block_param(Block(0), 8))?;
    print_done(rt, "1025th value", graph.append_block_param(Block(0), 8))?;
    print_done(
        rt,
        "1025th value, as a result",
        graph.append_inst(&constant(rt.alloc(), 7)?),
    )?;
    print_done(
        rt,
        "no value more",
        graph.append_inst(&opaque(rt.alloc(), 0)?),
    )?;
    Ok(())
}

/// The 1,024th instruction, and the 1,025th.
pub(crate) fn instructions(rt: &HostRuntime) -> anyhow::Result<()> {
    let mut graph = DataFlowGraph::new(rt.alloc())?;
    let _ = graph.make_block();
    let nothing = opaque(rt.alloc(), 0)?;
    for _ in 0..1023 {
        let _ = graph.append_inst(&nothing);
    }
    print_done(rt, "1024th instruction", graph.append_inst(&nothing))?;
    print_done(rt, "1025th instruction", graph.append_inst(&nothing))?;
    print_done(
        rt,
        "clear the 1024th instruction",
        graph.clear_results(Inst(1023)),
    )?;
    print_done(
        rt,
        "clear the 1025th instruction",
        graph.clear_results(Inst(1024)),
    )?;
    Ok(())
}

/// Two results where one value is left, and one where one is left.
pub(crate) fn two_results(rt: &HostRuntime) -> anyhow::Result<()> {
    let mut graph = DataFlowGraph::new(rt.alloc())?;
    let _ = graph.make_block();
    for _ in 0..1023 {
        let _ = graph.append_block_param(Block(0), 8);
    }
    print_done(
        rt,
        "two results for one place",
        graph.append_inst(&opaque(rt.alloc(), 2)?),
    )?;
    print_done(
        rt,
        "one result for one place",
        graph.append_inst(&opaque(rt.alloc(), 1)?),
    )?;
    Ok(())
}

/// Marks of 1,023 bytes, and of 1,024 and more, which are zero after the walk.
pub(crate) fn marks(rt: &HostRuntime) -> anyhow::Result<()> {
    let mut graph = DataFlowGraph::new(rt.alloc())?;
    let _ = graph.make_block();
    let seven = constant(rt.alloc(), 7)?;
    let _ = graph.append_inst(&seven);
    let _ = graph.append_inst(&seven);
    let _ = graph.clear_results(Inst(0));
    let _ = graph.clear_results(Inst(1));
    let mut short = [9; 1023];
    print_done(
        rt,
        "marks of 1023 bytes",
        graph.change_to_alias(Value(1), Value(0), &mut short),
    )?;
    print_marks(rt, &short)?;
    let mut long = [9; 1026];
    print_done(
        rt,
        "marks of 1026 bytes",
        graph.change_to_alias(Value(1), Value(0), &mut long),
    )?;
    print_marks(rt, &long)?;
    let mut unused = [9; 1024];
    print_done(
        rt,
        "marks that no walk took",
        graph.change_to_alias(Value(0), Value(1), &mut unused),
    )?;
    print_marks(rt, &unused)?;
    Ok(())
}

/// Prints how many marks are zero, and how many are not.
fn print_marks(rt: &impl Print, marks: &[u8]) -> io::Result<()> {
    let zero = marks.iter().filter(|mark| **mark == 0).count();
    let other = marks.iter().filter(|mark| **mark != 0).count();
    println!(rt; "marks zero {zero}, others {other}")
}

/// An 8-bit constant in the first block.
fn constant(heap: Global, imm: i64) -> Result<NewInst, AllocError> {
    Ok(NewInst {
        block: Block(0),
        opcode: u8::from(Opcode::Iconst),
        cond: 0,
        imm,
        args: Vec::new(heap),
        types: vec![in heap; 8]?,
    })
}

/// An opaque instruction in the first block, with so many 8-bit results.
fn opaque(heap: Global, results: usize) -> Result<NewInst, AllocError> {
    Ok(NewInst {
        block: Block(0),
        opcode: u8::from(Opcode::Opaque),
        cond: 0,
        imm: 0,
        args: Vec::new(heap),
        types: vec![in heap; 8; results]?,
    })
}
