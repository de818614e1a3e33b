ghost use Rattle.std.specs.Prelude.{◌≡◌};
ghost use Rattle.records.specs.Faults.{args_unused, asked_by, codes_known, codes_unused, counts_fit, results_unused};
ghost use Rattle.records.specs.RowsOf.{args_of, results_of, inst_row};

use ir::{Block, IntCC, Opcode, OpcodeConstraints, Operands, Value};
use rows::{InstructionData, Results};

/// An instruction record, its numbers as they stand.
#[derive(Clone, Copy, PartialEq, Eq, Debug)]
pub struct InstRecord {
    // Bytes of the format: a code may be unknown, a count past the end of its array, and the check refuses those.
    pub opcode: u8,
    pub cond: u8,
    pub arg_count: u8,
    pub result_count: u8,
    pub imm: i64,
    pub args: [u32; 3],
    pub results: [u32; 2],
    pub block: u32,
}

impl InstRecord {
    /// What the opcode asks, none where it is unknown.
    pub fn constraints(&self) -> Option<OpcodeConstraints>
        ensures { result ≡ asked_by self.now.opcode }
    {
        Opcode::try_from(self.opcode).map(Opcode::constraints).ok()
    }

    /// The operands, as many as the count says, at most three.
    pub fn operands(&self) -> Operands
        ensures { result ≡ args_of self.now }
    {
        let [a, b, c] = self.args.map(Value);
        match self.arg_count {
            0 => Operands::Nullary,
            1 => Operands::Unary(a),
            2 => Operands::Binary(a, b),
            _ => Operands::Ternary(a, b, c),
        }
    }

    /// The listed results, as many as the count says, at most two.
    pub fn listed(&self) -> Results
        ensures { result ≡ results_of self.now }
    {
        let [a, b] = self.results.map(Value);
        match self.result_count {
            0 => Results::Empty,
            1 => Results::Single(a),
            _ => Results::Pair(a, b),
        }
    }

    // A method and no `From`: of numbers that the check refuses, what it answers is no conversion.
    /// The row that the record stands for. An unknown opcode is read as opaque and an unknown condition as the first:
    /// the check refuses both.
    #[tactic(auto, using(crate::proofs::Lookups::known_or))]
    pub fn row(&self) -> InstructionData
        ensures { result ≡ inst_row self.now }
    {
        InstructionData {
            opcode: Opcode::try_from(self.opcode).unwrap_or(Opcode::Opaque),
            cond: IntCC::try_from(self.cond).unwrap_or(IntCC::Equal),
            imm: self.imm,
            args: self.operands(),
            results: self.listed(),
            block: Block(self.block),
        }
    }

    /// Whether opcode and condition are known.
    pub(crate) fn codes_known(&self) -> bool
        ensures { result ≡ codes_known self.now }
    {
        self.constraints().is_some() && IntCC::try_from(self.cond).is_ok()
    }

    /// Whether a condition that is no comparison's and an immediate that is no constant's are zero.
    pub(crate) fn codes_unused(&self) -> bool
        ensures { result ≡ codes_unused self.now }
    {
        let asked = self.constraints();
        (asked == Some(OpcodeConstraints::Compare) || self.cond == 0)
            && (asked == Some(OpcodeConstraints::Constant) || self.imm == 0)
    }

    /// Whether the operands behind the count are zero.
    pub(crate) fn args_unused(&self) -> bool
        ensures { result ≡ args_unused self.now }
    {
        self.args
            .iter()
            .skip(usize::from(self.arg_count))
            .all(|a| *a == 0)
    }

    /// Whether the results behind the count are zero.
    pub(crate) fn results_unused(&self) -> bool
        ensures { result ≡ results_unused self.now }
    {
        self.results
            .iter()
            .skip(usize::from(self.result_count))
            .all(|v| *v == 0)
    }

    /// Whether the counts go with the opcode: a cleared instruction lists no result.
    pub(crate) fn counts_fit(&self) -> bool
        ensures { result ≡ counts_fit (asked_by self.now.opcode) self.now.arg_count self.now.result_count }
    {
        self.constraints().is_some_and(|asked| {
            asked.arg_count_fits(usize::from(self.arg_count))
                && (self.result_count == 0
                    || asked.result_count_fits(usize::from(self.result_count)))
        })
    }
}
