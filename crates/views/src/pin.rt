use ir::Value;

/// A variable, by its original, and the constant that it is shown as.
#[derive(Clone, Copy, PartialEq, Eq, Debug)]
pub(crate) struct Pin {
    pub(crate) original: Value,
    pub(crate) imm: i64,
}

/// What stands where there is no pin.
impl Default for Pin {
    fn default() -> Pin {
        Pin {
            original: Value(0),
            imm: 0,
        }
    }
}
