ghost use Rattle.std.specs.Prelude.{◌≡◌, vec_items, [], Some, Err, MatchOption, ok_or, option_map};
ghost use Rattle.std.specs.Fn.{FnOnceReturnsAt};
ghost use Rattle.calls.specs.Calls.{call_of, inst_of as call_of_inst};
ghost use Rattle.script.specs.declared.error.ScriptError.TheVariants as script_error;
ghost use Rattle.script.specs.Text.{words as words_of, first, others};
ghost use Rattle.script.specs.Script.{once, with_item, items_said, items_of, no_items, types_of, none, inst, call_behind, line_of, Reads, ReadsLine};

use crate::error::ScriptError;
use crate::items::{Item, Items, read_item};
use crate::names::{Keyword, is_name, read_keyword, read_opcode, read_type};
use crate::numbers::{read_block, read_inst, read_value};
use crate::text::Words;
use calls::{BuildCall, NewInst};
use std::alloc::Global;

/// Reads the words of a line behind the name of the call.
#[derive(Debug, Drop)]
struct LineReader<'a> {
    /// Where lists are allocated.
    heap: Global,
    /// The number of the line, from 1.
    number: usize,
    /// The words that are still to be read.
    words: Words<'a>,
}

impl LineReader<'_> {
    /// That no call is spelled so.
    fn unreadable(&self) -> ScriptError
        ensures { result ≡ script_error.Line self.now.number }
    {
        ScriptError::Line(self.number)
    }

    /// The next word, as `read` reads it.
    fn next<T, F: FnOnce(&[u8]) -> Option<T>>(&mut self, read: F) -> Result<T, ScriptError>
        requires { F.IsAlwaysCallable read }
        ensures says { let e = script_error.Line self.old.number in MatchOption (first self.old.words) (result ≡ Err e) (λ w. (o : _) × FnOnceReturnsAt F.FnOnce read w o × (result ≡ ok_or o e)) }
        ensures rest { self.new ≡ record self.old { words = others self.old.words } }
    {
        self.words.next().and_then(read).ok_or(self.unreadable())
    }

    /// Refuses what stands where nothing may stand.
    fn nothing<T: Drop>(&self, there: Option<T>) -> Result<(), ScriptError>
        ensures { MatchOption there (result ≡ Ok tt) (λ _. result ≡ Err (script_error.Line self.now.number)) }
    {
        match there {
            None => Ok(()),
            Some(_) => Err(self.unreadable()),
        }
    }

    /// The call, if no word is left.
    fn finish(&mut self, call: BuildCall) -> Result<BuildCall, ScriptError>
        ensures { Reads self.old.number call_of result (none (call_of call) self.old.words) }
    {
        let more = self.words.next();
        self.nothing(more)?;
        Ok(call)
    }

    /// `append_block_param BLOCK TYPE`
    fn block_param(&mut self) -> Result<BuildCall, ScriptError>
        ensures { Reads self.old.number call_of result (call_behind Keyword.AppendBlockParam self.old.words) }
    {
        let block = self.next(read_block)?;
        let ty = self.next(read_type)?;
        self.finish(BuildCall::AppendBlockParam(block, ty))
    }

    /// `clear_results INST`
    fn clear(&mut self) -> Result<BuildCall, ScriptError>
        ensures { Reads self.old.number call_of result (call_behind Keyword.ClearResults self.old.words) }
    {
        let inst = self.next(read_inst)?;
        self.finish(BuildCall::ClearResults(inst))
    }

    /// `change_to_alias VALUE VALUE`
    fn alias(&mut self) -> Result<BuildCall, ScriptError>
        ensures { Reads self.old.number call_of result (call_behind Keyword.ChangeToAlias self.old.words) }
    {
        let dest = self.next(read_value)?;
        let src = self.next(read_value)?;
        self.finish(BuildCall::ChangeToAlias(dest, src))
    }

    /// Puts what may come once in its place, which has to be empty.
    fn once<T: Drop>(&self, place: &mut Option<T>, x: T) -> Result<(), ScriptError>
        ensures says { result ≡ ok_or (option_map (λ _. tt) (once place.old x)) (script_error.Line self.now.number) }
        ensures put { place.new ≡ Some x }
    {
        self.nothing(place.replace(x))
    }

    /// Adds an item. A second immediate or condition cannot be read.
    fn add(&self, items: &mut Items, item: Item) -> Result<(), ScriptError>
        ensures { Reads self.now.number (λ _. items_said items.new) result (with_item (items_said items.old) item) }
    {
        // What an item adds goes by its case, which carries the number.
        match item {
            Item::Operand(value) => items.args.push(value)?,
            Item::Immediate(imm) => self.once(&mut items.imm, imm)?,
            Item::Condition(cond) => self.once(&mut items.cond, cond)?,
        }
        Ok(())
    }

    /// The items up to the arrow. The words behind the arrow are left.
    fn items(&mut self) -> Result<Items, ScriptError>
        ensures says { Reads self.old.number (λ items. (items_said items, self.new.words)) result (items_of no_items self.old.words) }
        ensures same { self.new.number ≡ self.old.number }
    {
        let mut items = Items {
            args: Vec::new(self.heap),
            imm: None,
            cond: None,
        };
        // The refusal is made where it is due: `ok_or` would make one for each word.
        loop {
            let Some(word) = self.words.next() else {
                return Err(self.unreadable());
            };
            if is_name(word, "->") {
                return Ok(items);
            }
            let Some(item) = read_item(word) else {
                return Err(self.unreadable());
            };
            self.add(&mut items, item)?;
        }
    }

    /// The numbers of the types that all further words name.
    fn types(&mut self) -> Result<Vec<u16>, ScriptError>
        ensures { Reads self.old.number vec_items result (types_of [] self.old.words) }
    {
        let mut types = Vec::new(self.heap);
        let unreadable = self.unreadable();
        for word in &mut self.words {
            types.push(read_type(word).ok_or(unreadable)?)?;
        }
        Ok(types)
    }

    /// `append_inst BLOCK OPCODE {ITEM} -> {TYPE}`
    fn inst(&mut self) -> Result<NewInst, ScriptError>
        ensures { Reads self.old.number call_of_inst result (inst self.old.words) }
    {
        let block = self.next(read_block)?;
        let opcode = self.next(read_opcode)?;
        let Items { args, imm, cond } = self.items()?;
        let types = self.types()?;
        Ok(NewInst {
            block,
            opcode,
            cond: cond.unwrap_or(0),
            imm: imm.unwrap_or(0),
            args,
            types,
        })
    }

    /// The call of the keyword.
    fn call(&mut self, keyword: Keyword) -> Result<BuildCall, ScriptError>
        ensures { Reads self.old.number call_of result (call_behind keyword self.old.words) }
    {
        // Keywords are words of the format: cases, and no table of functions.
        match keyword {
            Keyword::MakeBlock => self.finish(BuildCall::MakeBlock),
            Keyword::AppendBlockParam => self.block_param(),
            Keyword::AppendInst => self.inst().map(BuildCall::AppendInst),
            Keyword::ClearResults => self.clear(),
            Keyword::ChangeToAlias => self.alias(),
            Keyword::ResolveAllAliases => self.finish(BuildCall::ResolveAllAliases),
        }
    }
}

/// The call of the line of this number, or none where the line is skipped.
pub(crate) fn read_line(
    heap: Global,
    number: usize,
    line: &[u8],
) -> Result<Option<BuildCall>, ScriptError>
    ensures { ReadsLine number result (line_of (words_of line.now)) }
{
    let mut words = Words::of(line);
    let word = match words.next() {
        None | Some([b'#', ..]) => return Ok(None),
        Some(word) => word,
    };
    let mut reader = LineReader {
        heap,
        number,
        words,
    };
    let keyword = read_keyword(word).ok_or(reader.unreadable())?;
    Ok(Some(reader.call(keyword)?))
}
