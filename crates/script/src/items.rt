ghost use Rattle.std.specs.Prelude.{◌≡◌};
ghost use Rattle.script.specs.Script.{item_of};

use crate::names::read_condition;
use crate::numbers::{read_immediate, read_value};
use ir::Value;

/// What a word between an opcode and the arrow says.
// A condition stays a number, as a call carries it.
#[derive(Clone, Copy, PartialEq, Eq, Debug)]
pub(crate) enum Item {
    Operand(Value),
    Immediate(i64),
    /// The code of a condition.
    Condition(u8),
}

/// What the words between an opcode and the arrow say.
#[derive(PartialEq, Eq, Debug, Drop)]
pub(crate) struct Items {
    pub(crate) args: Vec<Value>,
    pub(crate) imm: Option<i64>,
    pub(crate) cond: Option<u8>,
}

/// The item that a word is.
pub(crate) fn read_item(word: &[u8]) -> Option<Item>
    ensures { result ≡ item_of word.now }
{
    read_value(word)
        .map(Item::Operand)
        .or_else(|| read_immediate(word).map(Item::Immediate))
        .or_else(|| read_condition(word).map(Item::Condition))
}
