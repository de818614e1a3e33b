// A case: its name, and what its calls answer.
use anyhow::anyhow;
use calls::Answer;
use flow::LaidOut;
use ir::{Inst, Refusal, Value};
use script::read_script;
use std::io;

/// Prints one answer: what was made, or the refusal's number and place.
fn print_answer(rt: &impl Print, answer: &Result<Answer, Refusal>) -> io::Result<()> {
    match answer {
        Ok(answer) => print!(rt; " {answer}"),
        Err(refusal) => print_refusal(rt, *refusal),
    }
}

/// Prints a refusal's number and place.
fn print_refusal(rt: &impl Print, refusal: Refusal) -> io::Result<()> {
    let Refusal { cause, place } = refusal;
    print!(rt; " {}@{place}", u8::from(cause))
}

/// Prints whether a call was done, or the refusal.
pub(crate) fn print_done<T: Drop>(
    rt: &impl Print,
    name: &str,
    answer: Result<T, Refusal>,
) -> io::Result<()> {
    print!(rt; "{name}:")?;
    match answer {
        Ok(_) => print!(rt; " done")?,
        Err(refusal) => print_refusal(rt, refusal)?,
    }
    println!(rt; "")
}

/// The type number and the original of each value, and the single result of each instruction.
pub(crate) fn print_graph<G: LaidOut>(rt: &impl Print, graph: &G) -> io::Result<()> {
    print!(rt; " |")?;
    for value in (0..graph.num_values()).map(Value) {
        let bits = graph.value_type(value).bits();
        match graph.resolve_aliases(value) {
            Ok(original) => print!(rt; " {bits}:{original}")?,
            Err(_) => print!(rt; " missing")?,
        }
    }
    print!(rt; " |")?;
    for inst in (0..graph.num_insts()).map(Inst) {
        match graph.single_result(inst) {
            Ok(Some(value)) => print!(rt; " {value}")?,
            Ok(None) => print!(rt; " -")?,
            Err(_) => print!(rt; " missing")?,
        }
    }
    println!(rt; "")
}

/// Builds the graph of a script, and prints the answers and the graph.
pub(crate) fn run_script(rt: &HostRuntime, name: &str, script: &str) -> anyhow::Result<()> {
    print!(rt; "{name}:")?;
    let Ok(calls) = read_script(rt.alloc(), script.as_bytes()) else {
        return Err(anyhow!("a case cannot be read"));
    };
    let built = building::build(rt.alloc(), calls.as_slice())?;
    for answer in built.answers.iter() {
        print_answer(rt, answer)?;
    }
    print_graph(rt, &built.graph)?;
    Ok(())
}
