ghost use Rattle.std.specs.Prelude.{◌≡◌};
ghost use Rattle.ir.specs.Entities.{values};
ghost use Rattle.souper.specs.Counted.{is_translated};
ghost use Rattle.souper.specs.Translation.{form_of, same_widths};

use flow::FlowGraph;
use ir::{IntCC, Opcode, Operands, Word};

/// How an operation is translated.
#[derive(Clone, Copy, PartialEq, Eq, Debug)]
pub enum Form {
    /// Not at all: it becomes a variable.
    Untranslated,
    /// A word over the operands, in order.
    Plain(Word),
    /// `xor` of the operand with all ones.
    Inverted,
    /// `select`, on a condition of width 1.
    Selected,
    /// A comparison of width 1, extended by `zext`.
    Compared(Word),
}

impl Form {
    /// The form of an operation of a graph: a comparison is decided by its condition, a shift by whether its two operands have one width.
    // Inlined, since a harvest asks for each value of each walk.
    #[inline(always)]
    pub fn of<G: FlowGraph>(graph: &G, opcode: Opcode, cond: IntCC, args: Operands) -> Form
        ensures { result ≡ form_of opcode cond (same_widths (G.meaning graph.now) (values args)) }
    {
        match opcode {
            Opcode::Bnot => Form::Inverted,
            Opcode::Select => Form::Selected,
            Opcode::Icmp if let Some(word) = cond.word() => Form::Compared(word),
            Opcode::Ishl | Opcode::Sshr | Opcode::Ushr if !same_widths(graph, args) =>
                Form::Untranslated,
            _ => opcode.word().map_or(Form::Untranslated, Form::Plain),
        }
    }

    /// Whether the operation has a translation.
    #[inline]
    pub fn is_translated(self) -> bool
        ensures { result ≡ is_translated self }
    {
        match self {
            Form::Untranslated => false,
            Form::Plain(_) | Form::Inverted | Form::Selected | Form::Compared(_) => true,
        }
    }
}

/// Whether the first two operands have one width.
fn same_widths<G: FlowGraph>(graph: &G, args: Operands) -> bool
    ensures { result ≡ same_widths (G.meaning graph.now) (values args) }
{
    match args {
        Operands::Nullary | Operands::Unary(_) => false,
        Operands::Binary(a, b) | Operands::Ternary(a, b, _) => {
            graph.value_type(a).bits() == graph.value_type(b).bits()
        }
    }
}
