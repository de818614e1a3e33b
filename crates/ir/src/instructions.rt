ghost use Rattle.std.specs.Prelude.{◌≡◌, Some, ok_or};
ghost use Rattle.std.specs.Iterator.{YieldsFirstBy, YieldsLastBy, item_count};
ghost use Rattle.ir.specs.Entities.{arg_count, operands_of, values};
ghost use Rattle.ir.specs.declared.refusal.Cause.TheVariants.{WrongCount};
ghost use Rattle.ir.specs.Printed.{operands_text};

use crate::entities::Value;
use crate::refusal::Cause;
use std::fmt;
use std::marker::Model;

/// The operands of an instruction, in order.
#[derive(Clone, Copy, PartialEq, Eq, Debug)]
pub enum Operands {
    Nullary,
    Unary(Value),
    Binary(Value, Value),
    Ternary(Value, Value, Value),
}

impl Operands {
    /// How many operands there are.
    pub fn count(self) -> u8
        ensures { result ≡ arg_count self }
    {
        match self {
            Operands::Nullary => 0,
            Operands::Unary(_) => 1,
            Operands::Binary(_, _) => 2,
            Operands::Ternary(_, _, _) => 3,
        }
    }

    /// The operands one by one, from either end.
    pub fn iter(self) -> Args
        ensures { result ≡ self }
    {
        Args { rest: self }
    }
}

/// The operands in a list; there are no more than three.
impl TryFrom<&[Value]> for Operands {
    type Error = Cause;

    ghost try_from_gives = { λ args r. r ≡ ok_or (operands_of args.now) WrongCount };

    fn try_from(args: &[Value]) -> Result<Operands, Cause> {
        match args {
            [] => Ok(Operands::Nullary),
            [a] => Ok(Operands::Unary(*a)),
            [a, b] => Ok(Operands::Binary(*a, *b)),
            [a, b, c] => Ok(Operands::Ternary(*a, *b, *c)),
            _ => Err(Cause::WrongCount),
        }
    }
}

impl IntoIterator for Operands {
    type Item = Value;

    type IntoIter = Args;

    ghost into_iter_gives = { λ args it. it ≡ args };

    fn into_iter(self) -> Args {
        self.iter()
    }
}

/// The operands as they stand behind the name of an operation: a space in front of the first, commas between them, nothing where there is none.
impl fmt::Display for Operands {
    ghost output = { λ args. Some (operands_text args) };

    fn fmt<W: fmt::Write>(&self, f: &mut fmt::Formatter<W>) -> fmt::Result {
        match *self {
            Operands::Nullary => Ok(()),
            Operands::Unary(a) => write!(f, " {a}"),
            Operands::Binary(a, b) => write!(f, " {a}, {b}"),
            Operands::Ternary(a, b, c) => write!(f, " {a}, {b}, {c}"),
        }
    }
}

/// Goes through operands, from either end.
#[derive(Clone, Copy, PartialEq, Eq, Debug)]
pub struct Args {
    /// Those that are still to come.
    rest: Operands,
}

// Contracts see the operands that are still to come.
impl Model for Args {
    ghost use Rattle.ir.specs.declared.instructions.Operands.{Operands};

    ghost Value = { Operands };

    ghost view = { λ args. args.rest };

    ghost inverse = { λ rest. record { rest = rest } };
}

impl Iterator for Args {
    type Item = Value;

    ghost next_gives = { YieldsFirstBy (λ v. v.0) values };

    ghost remaining = { item_count values };

    fn next(&mut self) -> Option<Value> {
        let (first, rest) = match self.rest {
            Operands::Nullary => return None,
            Operands::Unary(a) => (a, Operands::Nullary),
            Operands::Binary(a, b) => (a, Operands::Unary(b)),
            Operands::Ternary(a, b, c) => (a, Operands::Binary(b, c)),
        };
        self.rest = rest;
        Some(first)
    }
}

impl DoubleEndedIterator for Args {
    ghost next_back_gives = { YieldsLastBy (λ v. v.0) values };

    fn next_back(&mut self) -> Option<Value> {
        let (last, rest) = match self.rest {
            Operands::Nullary => return None,
            Operands::Unary(a) => (a, Operands::Nullary),
            Operands::Binary(a, b) => (b, Operands::Unary(a)),
            Operands::Ternary(a, b, c) => (c, Operands::Binary(a, b)),
        };
        self.rest = rest;
        Some(last)
    }
}
