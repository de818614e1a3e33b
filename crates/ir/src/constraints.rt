ghost use Rattle.std.specs.Prelude.{◌≡◌};
ghost use Rattle.ir.specs.Codes.{type_bits};
ghost use Rattle.ir.specs.Widths.{is_integer, is_immediate};
ghost use Rattle.ir.specs.Constraints.{constraints_of, arg_count_fits, result_count_fits, widths_fit, immediate_fits, WidthsDecided};

use crate::opcodes::Opcode;
use crate::types::Type;

/// What an opcode asks of the count and the widths of its operands and of its result.
#[derive(Clone, Copy, PartialEq, Eq, Debug)]
pub enum OpcodeConstraints {
    /// no operand, an immediate, an integer result
    Constant,
    /// one operand of the result's width
    Unary,
    /// two operands of the result's width
    Binary,
    /// an operand of the result's width and an amount of any integer width
    Shift,
    /// a condition of any integer width and two operands of the result's width
    Select,
    /// one operand, strictly narrower than the result
    Extend,
    /// two operands of one integer width; the result has 8 bits
    Compare,
    /// at most three operands and two results, of any types
    Opaque,
}

impl Opcode {
    /// What the opcode asks.
    pub fn constraints(self) -> OpcodeConstraints
        ensures { result ≡ constraints_of self }
    {
        match self {
            Opcode::Iconst => OpcodeConstraints::Constant,
            Opcode::Bnot | Opcode::Popcnt | Opcode::Bitrev | Opcode::Clz | Opcode::Ctz =>
                OpcodeConstraints::Unary,
            Opcode::Ishl | Opcode::Sshr | Opcode::Ushr => OpcodeConstraints::Shift,
            Opcode::Select => OpcodeConstraints::Select,
            Opcode::Uextend | Opcode::Sextend => OpcodeConstraints::Extend,
            Opcode::Icmp => OpcodeConstraints::Compare,
            Opcode::Opaque => OpcodeConstraints::Opaque,
            _ => OpcodeConstraints::Binary,
        }
    }
}

/// Whether so many bits are those of an integer type.
fn is_integer(bits: u8) -> bool
    ensures { result ≡ is_integer bits }
{
    matches!(bits, 8 | 16 | 32 | 64)
}

/// Whether the number is an immediate of `Iconst` at this type.
fn is_immediate(ty: Type, imm: i64) -> bool
    ensures { result ≡ is_immediate (type_bits ty) imm }
{
    match ty {
        Type::Invalid => (0..1).contains(&imm),
        Type::Other => (0..2).contains(&imm),
        Type::I8 => (0..256).contains(&imm),
        Type::I16 => (0..65_536).contains(&imm),
        Type::I32 => (0..4_294_967_296).contains(&imm),
        Type::I64 => true,
    }
}

impl OpcodeConstraints {
    /// Whether an instruction may have so many operands.
    pub fn arg_count_fits(self, count: usize) -> bool
        ensures { result ≡ arg_count_fits self count }
    {
        match self {
            OpcodeConstraints::Constant => count == 0,
            OpcodeConstraints::Unary | OpcodeConstraints::Extend => count == 1,
            OpcodeConstraints::Binary | OpcodeConstraints::Shift | OpcodeConstraints::Compare =>
                count == 2,
            OpcodeConstraints::Select => count == 3,
            OpcodeConstraints::Opaque => count <= 3,
        }
    }

    /// Whether an instruction may have so many results.
    pub fn result_count_fits(self, count: usize) -> bool
        ensures { result ≡ result_count_fits self count }
    {
        if self == OpcodeConstraints::Opaque {
            count <= 2
        } else {
            count == 1
        }
    }

    // Widths as numbers, 0 where there is no operand, as for a deleted value: where a width is read, 0 does not pass.
    /// Whether a result of the width `w` goes with operands of these widths, 0 where there is none.
    pub fn widths_fit(self, w: u8, args: (u8, u8, u8)) -> bool
        ensures { result ≡ widths_fit self w args.0 args.1 args.2 }
    {
        let (a, b, c) = args;
        match self {
            OpcodeConstraints::Constant => is_integer(w),
            OpcodeConstraints::Unary => is_integer(w) && a == w,
            OpcodeConstraints::Binary => is_integer(w) && a == w && b == w,
            OpcodeConstraints::Shift => is_integer(w) && a == w && is_integer(b),
            OpcodeConstraints::Select => is_integer(w) && is_integer(a) && b == w && c == w,
            OpcodeConstraints::Extend => is_integer(w) && is_integer(a) && a < w,
            OpcodeConstraints::Compare => w == 8 && is_integer(a) && b == a,
            OpcodeConstraints::Opaque => true,
        }
    }

    /// Whether the immediate goes with the type of the result.
    pub fn immediate_fits(self, ty: Type, imm: i64) -> bool
        ensures { result ≡ immediate_fits self (type_bits ty) imm }
    {
        self != OpcodeConstraints::Constant || is_immediate(ty, imm)
    }
}

/// The tests of widths decide the relation between an operation's widths that its meaning rests on.
pub fn constraints_stand()
    ensures { WidthsDecided }
{}
