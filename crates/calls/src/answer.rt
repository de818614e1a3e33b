ghost use Rattle.std.specs.Prelude.{Some};
ghost use Rattle.calls.specs.Printed.{answer_text};

use ir::{Block, Inst, Value};
use std::fmt;

/// What a building call answers: the number given to what it made, if it made something.
#[derive(Clone, Copy, PartialEq, Eq, Debug)]
pub enum Answer {
    Block(Block),
    Value(Value),
    Inst(Inst),
    /// Nothing was made.
    Done,
}

/// The name of what was made.
impl fmt::Display for Answer {
    ghost output = { λ answer. Some (answer_text answer) };

    fn fmt<W: fmt::Write>(&self, f: &mut fmt::Formatter<W>) -> fmt::Result {
        match *self {
            Answer::Block(block) => write!(f, "{block}"),
            Answer::Value(value) => write!(f, "{value}"),
            Answer::Inst(inst) => write!(f, "{inst}"),
            Answer::Done => f.write_str("done"),
        }
    }
}
