//! What is looked for in the blocks of a path: that they name a variable, or that they may write
//! it.
//! meeting.rt, naming.rt, racing.rt and table.rt hand it down to the test of a block.

/// What is looked for in the blocks of a path.
#[derive(Clone, Copy, Debug, PartialEq, Eq)]
pub(crate) enum Sought {
    /// Blocks that may write the variable.
    Writes,
    /// Blocks that name the variable.
    Names,
}
