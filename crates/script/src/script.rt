ghost use Rattle.script.specs.Script.{script_of, ReadsScript};

use crate::error::ScriptError;
use crate::line::read_line;
use crate::text::Lines;
use calls::BuildCall;
use std::alloc::Global;

/// The building calls of a script, in order, or the first line that cannot be read.
pub fn read_script(heap: Global, text: &[u8]) -> Result<Vec<BuildCall>, ScriptError>
    ensures { ReadsScript result (script_of text.now) }
{
    let mut calls = Vec::new(heap);
    for (i, line) in Lines::of(text).enumerate() {
        if let Some(call) = read_line(heap, i + 1, line)? {
            calls.push(call)?;
        }
    }
    Ok(calls)
}
