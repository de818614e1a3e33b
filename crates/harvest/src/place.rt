ghost use Rattle.std.specs.Prelude.{◌≡◌, ◌+◌, ◌^◌, ◌<◌};

/// A place in layout order: a block, and an index among the block's instructions.
#[derive(Clone, Copy, PartialEq, Eq, Debug)]
pub struct Place {
    pub block: u32,
    pub index: u32,
}

impl Place {
    /// The place behind the instruction at an index of a block.
    // The index stops at the last number of 32 bits, which no block comes to.
    pub(crate) fn behind(block: u32, index: u32) -> Place
        ensures block { result.block ≡ block }
        ensures index { index + 1 < 2 ^ 32 → result.index ≡ index + 1 }
    {
        Place {
            block,
            index: index.saturating_add(1),
        }
    }
}
