ghost use Rattle.std.specs.Prelude.{◌≡◌};
ghost use Rattle.souper.specs.Words.{kind_of};

use ir::Word;

/// What a word asks of its operands.
#[derive(Clone, Copy, PartialEq, Eq, Debug)]
pub enum Kind {
    /// None: a variable.
    Variable,
    /// One, of the row's width.
    Unary,
    /// Two, of the row's width.
    Binary,
    /// Two, of one width; the row has width 1.
    Comparison,
    /// As a comparison, or the second is the zero that has no width.
    Inequality,
    /// A condition of width 1, and two of the row's width.
    Choice,
    /// One, narrower than the row.
    Extension,
}

impl Kind {
    /// The kind of a word.
    pub fn of(word: Word) -> Kind
        ensures { result ≡ kind_of word }
    {
        match word {
            Word::Var => Kind::Variable,
            Word::Ctpop | Word::Bitreverse | Word::Ctlz | Word::Cttz => Kind::Unary,
            Word::Add
            | Word::Mul
            | Word::Udiv
            | Word::Sdiv
            | Word::Urem
            | Word::Srem
            | Word::And
            | Word::Or
            | Word::Xor
            | Word::Shl
            | Word::Ashr
            | Word::Lshr
            | Word::SaddSat
            | Word::SsubSat
            | Word::UsubSat => Kind::Binary,
            Word::Eq | Word::Slt | Word::Sle | Word::Ult | Word::Ule => Kind::Comparison,
            Word::Ne => Kind::Inequality,
            Word::Select => Kind::Choice,
            Word::Zext | Word::Sext => Kind::Extension,
        }
    }
}
