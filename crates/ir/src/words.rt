ghost use Rattle.std.specs.Prelude.{◌≡◌, Some};
ghost use Rattle.ir.specs.Codes.{word_text};

use std::fmt;

/// The words of Souper, the variable's first.
#[derive(Clone, Copy, PartialEq, Eq, Debug)]
pub enum Word {
    Var,
    Add,
    Mul,
    Udiv,
    Sdiv,
    Urem,
    Srem,
    And,
    Or,
    Xor,
    Shl,
    Ashr,
    Lshr,
    Select,
    Zext,
    Sext,
    Eq,
    Ne,
    Slt,
    Sle,
    Ult,
    Ule,
    Ctpop,
    Bitreverse,
    Ctlz,
    Cttz,
    SaddSat,
    SsubSat,
    UsubSat,
}

impl Word {
    /// The word as Souper spells it.
    pub fn text(self) -> &'static str
        ensures { result.now ≡ word_text self }
    {
        match self {
            Word::Var => "var",
            Word::Add => "add",
            Word::Mul => "mul",
            Word::Udiv => "udiv",
            Word::Sdiv => "sdiv",
            Word::Urem => "urem",
            Word::Srem => "srem",
            Word::And => "and",
            Word::Or => "or",
            Word::Xor => "xor",
            Word::Shl => "shl",
            Word::Ashr => "ashr",
            Word::Lshr => "lshr",
            Word::Select => "select",
            Word::Zext => "zext",
            Word::Sext => "sext",
            Word::Eq => "eq",
            Word::Ne => "ne",
            Word::Slt => "slt",
            Word::Sle => "sle",
            Word::Ult => "ult",
            Word::Ule => "ule",
            Word::Ctpop => "ctpop",
            Word::Bitreverse => "bitreverse",
            Word::Ctlz => "ctlz",
            Word::Cttz => "cttz",
            Word::SaddSat => "sadd.sat",
            Word::SsubSat => "ssub.sat",
            Word::UsubSat => "usub.sat",
        }
    }
}

/// As Souper spells it.
impl fmt::Display for Word {
    ghost output = { λ w. Some (word_text w) };

    fn fmt<W: fmt::Write>(&self, f: &mut fmt::Formatter<W>) -> fmt::Result {
        f.write_str(self.text())
    }
}
