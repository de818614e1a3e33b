ghost use Rattle.std.specs.Prelude.{◌≡◌, Some};
ghost use Rattle.ir.specs.Codes.{opcode_code, opcode_name, opcode_word, opcode_at, known};

use crate::codes::coded;
use crate::refusal::Cause;
use crate::words::Word;
use std::fmt;

/// The opcodes, in the order of their codes.
#[derive(Clone, Copy, PartialEq, Eq, Debug)]
pub enum Opcode {
    Iconst,
    Iadd,
    Imul,
    Udiv,
    Sdiv,
    Urem,
    Srem,
    Band,
    Bor,
    Bxor,
    Bnot,
    Ishl,
    Sshr,
    Ushr,
    Select,
    Uextend,
    Sextend,
    Icmp,
    Popcnt,
    Bitrev,
    Clz,
    Ctz,
    SaddSat,
    SsubSat,
    UsubSat,
    /// any other instruction: its results are variables
    Opaque,
}

impl Opcode {
    /// Every opcode, in the order of the codes.
    pub const ALL: [Opcode; 26] = [
        Opcode::Iconst,
        Opcode::Iadd,
        Opcode::Imul,
        Opcode::Udiv,
        Opcode::Sdiv,
        Opcode::Urem,
        Opcode::Srem,
        Opcode::Band,
        Opcode::Bor,
        Opcode::Bxor,
        Opcode::Bnot,
        Opcode::Ishl,
        Opcode::Sshr,
        Opcode::Ushr,
        Opcode::Select,
        Opcode::Uextend,
        Opcode::Sextend,
        Opcode::Icmp,
        Opcode::Popcnt,
        Opcode::Bitrev,
        Opcode::Clz,
        Opcode::Ctz,
        Opcode::SaddSat,
        Opcode::SsubSat,
        Opcode::UsubSat,
        Opcode::Opaque,
    ];

    /// The opcode's name in the IR.
    pub fn name(self) -> &'static str
        ensures { result.now ≡ opcode_name self }
    {
        match self {
            Opcode::Iconst => "iconst",
            Opcode::Iadd => "iadd",
            Opcode::Imul => "imul",
            Opcode::Udiv => "udiv",
            Opcode::Sdiv => "sdiv",
            Opcode::Urem => "urem",
            Opcode::Srem => "srem",
            Opcode::Band => "band",
            Opcode::Bor => "bor",
            Opcode::Bxor => "bxor",
            Opcode::Bnot => "bnot",
            Opcode::Ishl => "ishl",
            Opcode::Sshr => "sshr",
            Opcode::Ushr => "ushr",
            Opcode::Select => "select",
            Opcode::Uextend => "uextend",
            Opcode::Sextend => "sextend",
            Opcode::Icmp => "icmp",
            Opcode::Popcnt => "popcnt",
            Opcode::Bitrev => "bitrev",
            Opcode::Clz => "clz",
            Opcode::Ctz => "ctz",
            Opcode::SaddSat => "sadd_sat",
            Opcode::SsubSat => "ssub_sat",
            Opcode::UsubSat => "usub_sat",
            Opcode::Opaque => "opaque",
        }
    }

    /// Souper's word for the operation, if one word stands for it whatever the condition.
    pub fn word(self) -> Option<Word>
        ensures { result ≡ opcode_word self }
    {
        match self {
            Opcode::Iadd => Some(Word::Add),
            Opcode::Imul => Some(Word::Mul),
            Opcode::Udiv => Some(Word::Udiv),
            Opcode::Sdiv => Some(Word::Sdiv),
            Opcode::Urem => Some(Word::Urem),
            Opcode::Srem => Some(Word::Srem),
            Opcode::Band => Some(Word::And),
            Opcode::Bor => Some(Word::Or),
            Opcode::Bxor => Some(Word::Xor),
            Opcode::Bnot => Some(Word::Xor),
            Opcode::Ishl => Some(Word::Shl),
            Opcode::Sshr => Some(Word::Ashr),
            Opcode::Ushr => Some(Word::Lshr),
            Opcode::Select => Some(Word::Select),
            Opcode::Uextend => Some(Word::Zext),
            Opcode::Sextend => Some(Word::Sext),
            Opcode::Popcnt => Some(Word::Ctpop),
            Opcode::Bitrev => Some(Word::Bitreverse),
            Opcode::Clz => Some(Word::Ctlz),
            Opcode::Ctz => Some(Word::Cttz),
            Opcode::SaddSat => Some(Word::SaddSat),
            Opcode::SsubSat => Some(Word::SsubSat),
            Opcode::UsubSat => Some(Word::UsubSat),
            Opcode::Iconst | Opcode::Icmp | Opcode::Opaque => None,
        }
    }
}

/// The number by which a caller knows the opcode.
impl From<Opcode> for u8 {
    ghost from_gives = { λ o code. code ≡ opcode_code o };

    fn from(opcode: Opcode) -> u8 {
        opcode as u8
    }
}

/// The opcode of a code; no other code is known.
impl TryFrom<u8> for Opcode {
    type Error = Cause;

    ghost try_from_gives = { λ code r. r ≡ known (opcode_at code) };

    fn try_from(code: u8) -> Result<Opcode, Cause> {
        coded(&Opcode::ALL, code)
    }
}

/// Its name.
impl fmt::Display for Opcode {
    ghost output = { λ o. Some (opcode_name o) };

    fn fmt<W: fmt::Write>(&self, f: &mut fmt::Formatter<W>) -> fmt::Result {
        f.write_str(self.name())
    }
}
