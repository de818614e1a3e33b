ghost use Rattle.std.specs.Prelude.{◌≡◌, map};
ghost use Rattle.std.specs.Str.{bytes_eq};
ghost use Rattle.script.specs.Names.{named, keyword_of, type_of, opcode_of, condition_of};

use crate::numbers::{read_number, strip};
use ir::{IntCC, Opcode};

/// The name of a building call.
#[derive(Clone, Copy, PartialEq, Eq, Debug)]
pub(crate) enum Keyword {
    MakeBlock,
    AppendBlockParam,
    AppendInst,
    ClearResults,
    ChangeToAlias,
    ResolveAllAliases,
}

/// The building calls by their names.
const KEYWORDS: [(&str, Keyword); 6] = [
    ("make_block", Keyword::MakeBlock),
    ("append_block_param", Keyword::AppendBlockParam),
    ("append_inst", Keyword::AppendInst),
    ("clear_results", Keyword::ClearResults),
    ("change_to_alias", Keyword::ChangeToAlias),
    ("resolve_all_aliases", Keyword::ResolveAllAliases),
];

/// The numbers of the types that have a name.
// A table of its own: the format has no word for the invalid type, which `Type` names too.
const TYPES: [(&str, u16); 5] = [
    ("i8", 8),
    ("i16", 16),
    ("i32", 32),
    ("i64", 64),
    ("other", 1),
];

/// Whether the word is the name.
pub(crate) fn is_name(word: &[u8], name: &str) -> bool
    ensures { result ≡ bytes_eq word.now name.now }
{
    word == name.as_bytes()
}

/// What the word names in a table.
fn look_up<T: Copy>(table: &[(&str, T)], word: &[u8]) -> Option<T>
    ensures { result ≡ named (map (λ entry. (entry.0.now, entry.1)) table.now) word.now }
{
    table
        .iter()
        .find(|(name, _)| is_name(word, name))
        .map(|(_, x)| *x)
}

/// The building call that the word names.
pub(crate) fn read_keyword(word: &[u8]) -> Option<Keyword>
    ensures { result ≡ keyword_of word.now }
{
    look_up(&KEYWORDS, word)
}

// Types, opcodes and conditions stay numbers here: whether they exist is for the graph to judge, as a call carries them.

/// The number of a type, from its name or from the number itself.
pub(crate) fn read_type(word: &[u8]) -> Option<u16>
    ensures { result ≡ type_of word.now }
{
    look_up(&TYPES, word).or_else(|| read_number(word))
}

// Two chains for opcodes and conditions: what they share is `find`, and a trait that names their cases would be longer.

/// The code of an opcode, from its name or from the code itself.
pub(crate) fn read_opcode(word: &[u8]) -> Option<u8>
    ensures { result ≡ opcode_of word.now }
{
    Opcode::ALL
        .iter()
        .find(|o| is_name(word, o.name()))
        .map(|o| u8::from(*o))
        .or_else(|| read_number(word))
}

/// The code of a condition, from its name or from the code behind `cc`.
pub(crate) fn read_condition(word: &[u8]) -> Option<u8>
    ensures { result ≡ condition_of word.now }
{
    IntCC::ALL
        .iter()
        .find(|c| is_name(word, c.name()))
        .map(|c| u8::from(*c))
        .or_else(|| read_number(strip(word, "cc")?))
}
