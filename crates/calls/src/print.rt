// Calls are printed as a script writes them: names where there are names, and else the numbers.
ghost use Rattle.std.specs.Prelude.{Some};
ghost use Rattle.ir.specs.Printed.{value_text};
ghost use Rattle.calls.specs.Printed.{call_text, condition_text, each, immediate_text, new_inst_text, opcode_text, type_text};

use crate::call::{BuildCall, NewInst};
use ir::{IntCC, Opcode, Type, Value};
use std::fmt;

// A type for each part: what it writes is stated at the type, and joined where a call is written.

/// An opcode, by its name or else by its code.
#[derive(Clone, Copy, Debug)]
struct OpcodeCode(u8);

impl fmt::Display for OpcodeCode {
    ghost output = { λ code. Some (opcode_text code.0) };

    fn fmt<W: fmt::Write>(&self, f: &mut fmt::Formatter<W>) -> fmt::Result {
        match Opcode::try_from(self.0) {
            Ok(opcode) => write!(f, "{opcode}"),
            Err(_) => write!(f, "{}", self.0),
        }
    }
}

/// A type, by its name or else by its bits.
#[derive(Clone, Copy, Debug)]
struct TypeBits(u16);

impl fmt::Display for TypeBits {
    ghost output = { λ bits. Some (type_text bits.0) };

    fn fmt<W: fmt::Write>(&self, f: &mut fmt::Formatter<W>) -> fmt::Result {
        match Type::try_from(self.0) {
            Ok(ty) => write!(f, "{ty}"),
            Err(_) => write!(f, "{}", self.0),
        }
    }
}

/// The condition of an instruction behind its opcode, where it is not the first or the opcode reads it.
#[derive(Clone, Copy, Debug)]
struct Condition {
    opcode: u8,
    cond: u8,
}

impl fmt::Display for Condition {
    ghost output = { λ c. Some (condition_text c.opcode c.cond) };

    fn fmt<W: fmt::Write>(&self, f: &mut fmt::Formatter<W>) -> fmt::Result {
        if self.cond == 0 && self.opcode != u8::from(Opcode::Icmp) {
            return Ok(());
        }
        match IntCC::try_from(self.cond) {
            Ok(cond) => write!(f, " {cond}"),
            Err(_) => write!(f, " cc{}", self.cond),
        }
    }
}

/// The immediate of an instruction, where it is not 0 or the opcode reads it.
#[derive(Clone, Copy, Debug)]
struct Immediate {
    opcode: u8,
    imm: i64,
}

impl fmt::Display for Immediate {
    ghost output = { λ i. Some (immediate_text i.opcode i.imm) };

    fn fmt<W: fmt::Write>(&self, f: &mut fmt::Formatter<W>) -> fmt::Result {
        if self.imm == 0 && self.opcode != u8::from(Opcode::Iconst) {
            return Ok(());
        }
        write!(f, " {}", self.imm)
    }
}

/// Operands, each behind a space.
#[derive(Clone, Copy, Debug)]
struct Args<'a>(&'a [Value]);

impl fmt::Display for Args<'_> {
    ghost output = { λ args. Some (each value_text args.0.now) };

    fn fmt<W: fmt::Write>(&self, f: &mut fmt::Formatter<W>) -> fmt::Result {
        for arg in self.0 {
            write!(f, " {arg}")?;
        }
        Ok(())
    }
}

/// Types, each behind a space.
#[derive(Clone, Copy, Debug)]
struct Types<'a>(&'a [u16]);

impl fmt::Display for Types<'_> {
    ghost output = { λ types. Some (each type_text types.0.now) };

    fn fmt<W: fmt::Write>(&self, f: &mut fmt::Formatter<W>) -> fmt::Result {
        for bits in self.0 {
            write!(f, " {}", TypeBits(*bits))?;
        }
        Ok(())
    }
}

/// As a script writes it, behind the name of the call.
impl fmt::Display for NewInst {
    ghost output = { λ new. Some (new_inst_text new) };

    fn fmt<W: fmt::Write>(&self, f: &mut fmt::Formatter<W>) -> fmt::Result {
        let opcode = OpcodeCode(self.opcode);
        let cond = Condition {
            opcode: self.opcode,
            cond: self.cond,
        };
        let args = Args(self.args.as_slice());
        let imm = Immediate {
            opcode: self.opcode,
            imm: self.imm,
        };
        let types = Types(self.types.as_slice());
        write!(f, "{} {opcode}{cond}{args}{imm} ->{types}", self.block)
    }
}

/// As a script writes it.
impl fmt::Display for BuildCall {
    ghost output = { λ call. Some (call_text call) };

    fn fmt<W: fmt::Write>(&self, f: &mut fmt::Formatter<W>) -> fmt::Result {
        match self {
            BuildCall::MakeBlock => f.write_str("make_block"),
            BuildCall::AppendBlockParam(block, bits) => {
                write!(f, "append_block_param {block} {}", TypeBits(*bits))
            }
            BuildCall::AppendInst(new) => write!(f, "append_inst {new}"),
            BuildCall::ClearResults(inst) => write!(f, "clear_results {inst}"),
            BuildCall::ChangeToAlias(dest, src) => write!(f, "change_to_alias {dest} {src}"),
            BuildCall::ResolveAllAliases => f.write_str("resolve_all_aliases"),
        }
    }
}
