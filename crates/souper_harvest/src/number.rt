// A value's number in the IR, and the number on its row.
use crate::options::Options;
use anyhow::anyhow;
use arith::number_at;
use eval::{ir_number, row_number};
use flow::{FlowGraph, ValueDef, original, value_definition};
use harvest::{ROWS, translate_value};
use ir::{Refusal, Value, Word};
use souper::{Kind, Row};
use std::alloc::{AllocError, Global};
use std::io;
use walk::{MARKS, Visitor, post_order_dfs};

/// Keeps the values that it is shown, in their order.
#[derive(Drop)]
struct Shown {
    values: Vec<Value>,
}

impl Visitor for Shown {
    type Stop = AllocError;

    // Nothing is promised of what it keeps.
    ghost use Rattle.std.specs.Prelude.{ℕ, List};

    ghost fits = { λ a shown b. Unit {0} };

    ghost stops = { λ a shown b stop. Unit {0} };

    ghost starts = { λ a. tt };

    fn show(&mut self, v: Value) -> Result<(), AllocError> {
        Ok(self.values.push(v)?)
    }
}

/// The values of a live value's walk, in its order.
fn walked<G: FlowGraph>(alloc: Global, graph: &G, root: Value) -> anyhow::Result<Vec<Value>> {
    let mut shown = Shown {
        values: Vec::new(alloc),
    };
    let mut marks = [0; MARKS];
    match post_order_dfs(graph, root, &mut marks, &mut shown) {
        Ok(_) => Ok(shown.values),
        Err(_) => Err(anyhow!("memory ran out")),
    }
}

/// What the variables hold by value number: what was given, and 0 for those that nothing was given for.
fn inputs_of<G: FlowGraph>(
    alloc: Global,
    graph: &G,
    given: &[(Value, u64)],
) -> Result<Vec<u64>, AllocError> {
    let mut inputs = vec![in alloc; 0; graph.num_values() as usize]?;
    for (value, number) in given {
        if let Some(input) = inputs.get_mut(value.0 as usize) {
            *input = *number;
        }
    }
    Ok(inputs)
}

/// Whether a row stands for a value: comparisons are helpers.
fn is_own(row: &Row) -> bool {
    !matches!(Kind::of(row.word), Kind::Comparison | Kind::Inequality)
}

/// What a variable row holds: its value's IR number, and 0 where there is none. A variable's is its input, whatever its type and
/// however wide the input.
fn held<G: FlowGraph>(graph: &G, value: Value, inputs: &[u64], marks: &mut [u8]) -> u64 {
    if value_definition(graph, value) == ValueDef::Variable {
        return number_at(inputs, original(graph, value).0 as usize);
    }
    ir_number(graph, value, inputs, marks).unwrap_or(0)
}

/// What the variable rows hold.
fn row_inputs<G: FlowGraph>(
    alloc: Global,
    graph: &G,
    root: Value,
    rows: &[Row],
    inputs: &[u64],
) -> anyhow::Result<Vec<u64>> {
    let mut row_inputs = vec![in alloc; 0; rows.len()]?;
    let mut marks = [0; MARKS];
    let values = walked(alloc, graph, root)?;
    let with_rows = values.iter().filter(|v| !matches!(
        value_definition(graph, **v),
        ValueDef::Constant(_)
    ));
    let own = rows.iter().enumerate().filter(|(_, row)| is_own(row));
    for ((number, row), value) in own.zip(with_rows) {
        if row.word == Word::Var {
            if let Some(input) = row_inputs.get_mut(number) {
                *input = held(graph, *value, inputs, &mut marks);
            }
        }
    }
    Ok(row_inputs)
}

/// Prints a number, or why there is none.
fn print_answer(
    rt: &impl Print,
    name: &str,
    of: u32,
    answer: Result<u64, Refusal>,
) -> io::Result<()> {
    match answer {
        Ok(number) => println!(rt; "{name}{of} = {number}"),
        Err(refusal) => println!(rt; "{name}{of}: {refusal}"),
    }
}

/// Prints a value's number in the IR, and the number on its row, where the variable rows hold their values' numbers.
pub(crate) fn print_number<G: FlowGraph>(
    rt: &HostRuntime,
    graph: &G,
    value: Value,
    options: &Options,
) -> anyhow::Result<()> {
    let mut marks = [0; MARKS];
    let inputs = inputs_of(rt.alloc(), graph, options.inputs_given.as_slice())?;
    print_answer(
        rt,
        "v",
        value.0,
        ir_number(graph, value, inputs.as_slice(), &mut marks),
    )?;
    let mut table = [Row::BLANK; ROWS];
    let Ok(written) = translate_value(graph, value, &mut marks, &mut table) else {
        return Ok(());
    };
    let Some(last) = written.rows.checked_sub(1) else {
        println!(rt; "{value} is a constant, and has no row")?;
        return Ok(());
    };
    let rows = table.get(..written.rows as usize).unwrap_or(&[]);
    let held = row_inputs(rt.alloc(), graph, value, rows, inputs.as_slice())?;
    print_answer(rt, "%", last, row_number(rows, last, held.as_slice()))?;
    Ok(())
}
