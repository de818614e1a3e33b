use ir::{Block, Inst, Value};

// Opcodes, conditions and types are numbers here, and counts are free: the graph refuses wrong ones, so a call has to be
// able to say them.

/// An instruction to append to a block.
#[derive(PartialEq, Eq, Debug, Drop)]
pub struct NewInst {
    pub block: Block,
    /// The code of an opcode.
    pub opcode: u8,
    /// The code of a condition, which only a comparison reads.
    pub cond: u8,
    /// The immediate, which only a constant reads.
    pub imm: i64,
    /// The operands, in order.
    pub args: Vec<Value>,
    /// The bits of each result's type, in order.
    pub types: Vec<u16>,
}

/// A building call.
#[derive(PartialEq, Eq, Debug, Drop)]
pub enum BuildCall {
    MakeBlock,
    /// A parameter for a block, of a type of so many bits.
    AppendBlockParam(Block, u16),
    AppendInst(NewInst),
    ClearResults(Inst),
    /// The destination, then the source.
    ChangeToAlias(Value, Value),
    ResolveAllAliases,
}
