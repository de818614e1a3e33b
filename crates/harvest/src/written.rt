// What was written of a root.
use ir::Value;

/// How many rows a table has at least that a candidate is written into: no walk has more.
pub const ROWS: usize = 2048;

/// What was written of a root.
#[derive(Clone, Copy, PartialEq, Eq, Debug)]
pub struct Written {
    pub root: Value,
    /// How many rows, from row 0 of the table on.
    pub rows: u32,
    /// How many counted operations the root reaches.
    pub counted: u32,
    /// How many steps the walk of the root took.
    pub steps: u32,
}
