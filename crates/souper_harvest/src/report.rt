// What calls and pins answered, the verdict on an image, and a graph. It is printed where it was asked for, and else told on standard
// error where something was refused.
use calls::{Answer, BuildCall};
use flow::{LaidOut, ValueDef};
use ir::{Block, Inst, Refusal, Value};
use std::io;

/// Prints each call with its answer, one to a line.
pub(crate) fn print_answers(
    rt: &impl Print,
    calls: &[BuildCall],
    answers: &[Result<Answer, Refusal>],
) -> io::Result<()> {
    for (call, answer) in calls.iter().zip(answers.iter()) {
        match answer {
            Ok(answer) => println!(rt; "{call}: {answer}")?,
            Err(refusal) => println!(rt; "{call}: {refusal}")?,
        }
    }
    Ok(())
}

/// Tells which calls were refused, and why.
pub(crate) fn tell_refused(
    rt: &impl Eprint,
    calls: &[BuildCall],
    answers: &[Result<Answer, Refusal>],
) -> io::Result<()> {
    for (call, answer) in calls.iter().zip(answers.iter()) {
        if let Err(refusal) = answer {
            eprintln!(rt; "{call}: {refusal}")?;
        }
    }
    Ok(())
}

/// Prints how many records of each kind an accepted image has.
pub(crate) fn print_accepted<G: LaidOut>(rt: &impl Print, image: &G) -> io::Result<()> {
    let values = image.num_values();
    let insts = image.num_insts();
    println!(rt; "accepted: {values} value records, {insts} instruction records")
}

/// Prints a pin with its answer.
pub(crate) fn print_pin(
    rt: &impl Print,
    value: Value,
    imm: i64,
    answer: Result<(), Refusal>,
) -> io::Result<()> {
    match answer {
        Ok(()) => println!(rt; "pin {value}={imm}: done"),
        Err(refusal) => println!(rt; "pin {value}={imm}: {refusal}"),
    }
}

/// Tells that a pin was refused, if it was.
pub(crate) fn tell_pin(
    rt: &impl Eprint,
    value: Value,
    imm: i64,
    answer: Result<(), Refusal>,
) -> io::Result<()> {
    match answer {
        Ok(()) => Ok(()),
        Err(refusal) => eprintln!(rt; "pin {value}={imm}: {refusal}"),
    }
}

/// Prints a graph in layout order: its blocks with their instructions, and then all other values.
pub(crate) fn print_graph<G: LaidOut>(rt: &impl Print, graph: &G) -> io::Result<()> {
    for block in (0..graph.num_blocks()).map(Block) {
        println!(rt; "{block}:")?;
        print_insts(rt, graph, block)?;
    }
    println!(rt; "other values:")?;
    for value in (0..graph.num_values()).map(Value) {
        if !is_single_result(graph, value) {
            print!(rt; "    ")?;
            print_value(rt, graph, value)?;
        }
    }
    Ok(())
}

/// Prints the instructions of a block.
fn print_insts<G: LaidOut>(rt: &impl Print, graph: &G, block: Block) -> io::Result<()> {
    for inst in (0..graph.num_insts()).map(Inst) {
        if graph.inst_block(inst) == Ok(block) {
            print!(rt; "    {inst}: ")?;
            match graph.single_result(inst) {
                Ok(Some(value)) => print_value(rt, graph, value)?,
                _ => println!(rt; "no single result")?,
            }
        }
    }
    Ok(())
}

/// Whether a value is the single result of some instruction.
fn is_single_result<G: LaidOut>(graph: &G, value: Value) -> bool {
    (0..graph.num_insts()).any(|number| graph.single_result(Inst(number)) == Ok(Some(value)))
}

/// Prints a value with its type, and what defines it or what it is another name for.
fn print_value<G: LaidOut>(rt: &impl Print, graph: &G, value: Value) -> io::Result<()> {
    let ty = graph.value_type(value);
    match (graph.resolve_aliases(value), graph.value_def(value)) {
        (Ok(_), Ok(ValueDef::Deleted)) => println!(rt; "{value}: deleted"),
        (Ok(original), Ok(def)) if original == value => println!(rt; "{value}: {ty} = {def}"),
        (Ok(original), Ok(_)) => println!(rt; "{value}: {ty} = alias of {original}"),
        _ => println!(rt; "{value}: missing"),
    }
}
