// Numbers of values and of rows of the images of a folder. Its file `evals.txt` has a line for each: the name of an image, what is asked for, what
// the variables hold, and the answer that is due, as `NAME ir v4 [10,0,0,0,0] = 37` or `NAME row v4 2 [10,0,0] = 37`: the IR number of v4 with a number for each value, and the number
// on row 2 of the rows of v4 with a number for each row. An answer is a number, or `refused NUMBER PLACE`.
use crate::due::{Tally, read_in, read_text};
use anyhow::anyhow;
use eval::{ir_number, row_number};
use harvest::{ROWS, translate_value};
use image::Image;
use ir::{Refusal, Value};
use script::read_value;
use souper::Row;
use std::alloc::{AllocError, Global};
use walk::MARKS;

/// The numbers between brackets.
fn numbers(alloc: Global, text: &str) -> anyhow::Result<Vec<u64>> {
    let mut numbers = Vec::new(alloc);
    let Some(list) = text
        .strip_prefix('[')
        .and_then(|rest| rest.strip_suffix(']'))
    else {
        return Err(anyhow!("what variables hold cannot be read"));
    };
    for number in list.split(',') {
        let Ok(number) = number.parse() else {
            return Err(anyhow!("a number cannot be read"));
        };
        numbers.push(number)?;
    }
    Ok(numbers)
}

/// An answer, as the file spells it.
fn spelled(alloc: Global, answer: Result<u64, Refusal>) -> Result<String, AllocError> {
    match answer {
        Ok(number) => format!(in alloc; "{number}"),
        Err(Refusal { cause, place }) => {
            let number = u8::from(cause);
            format!(in alloc; "refused {number} {place}")
        }
    }
}

/// The number on a row of those of a value.
fn number_on(image: &Image, root: Value, row: u32, inputs: &[u64]) -> Result<u64, Refusal> {
    let mut marks = [0; MARKS];
    let mut table = [Row::BLANK; ROWS];
    let written = translate_value(image, root, &mut marks, &mut table)?;
    let rows = table.get(..written.rows as usize).unwrap_or(&[]);
    row_number(rows, row, inputs)
}

/// What is answered to a question about the image of this name.
fn answer(rt: &HostRuntime, folder: &str, question: &str) -> anyhow::Result<Result<u64, Refusal>> {
    let mut words = question.split(' ');
    let (Some(name), Some(kind), Some(value)) = (words.next(), words.next(), words.next()) else {
        return Err(anyhow!("a question cannot be read"));
    };
    let bytes = read_in(rt, folder, name, ".img")?;
    let image = Image::new(bytes.as_slice());
    let Some(value) = read_value(value.as_bytes()) else {
        return Err(anyhow!("a value cannot be read"));
    };
    if kind == "ir" {
        let inputs = numbers(rt.alloc(), words.next().unwrap_or(""))?;
        let mut marks = [0; MARKS];
        return Ok(ir_number(&image, value, inputs.as_slice(), &mut marks));
    }
    let Some(row) = words.next().and_then(|row| row.parse().ok()) else {
        return Err(anyhow!("a row cannot be read"));
    };
    let inputs = numbers(rt.alloc(), words.next().unwrap_or(""))?;
    Ok(number_on(&image, value, row, inputs.as_slice()))
}

/// Asks each question about the images of a folder, and prints those that are answered otherwise than is due.
pub(crate) fn replay(rt: &HostRuntime, folder: &str, tally: &mut Tally) -> anyhow::Result<()> {
    let path = format!(in rt.alloc(); "{folder}/evals.txt")?;
    let questions = read_text(rt, path.as_str())?;
    for line in questions.as_str().lines() {
        let Some((question, due)) = line.split_once(" = ") else {
            return Err(anyhow!("{path}: a line cannot be read: {line}"));
        };
        let answer = match answer(rt, folder, question) {
            Ok(answer) => spelled(rt.alloc(), answer)?,
            Err(error) => return Err(anyhow!("{path}: {question}: {error}")),
        };
        let is_due = answer.as_str() == due;
        tally.count(is_due);
        if !is_due {
            println!(rt; "{question}: {answer}, and not {due}")?;
        }
    }
    Ok(())
}
