//! What becomes of a block of the tape.
use nc_number::ListOf;
use nc_text::BlockList;

/// Plain blocks that stand in place of a line.
#[derive(Debug, Drop)]
pub struct Replaced {
    /// The line, from 1.
    pub line: u32,
    /// Its sequence number, which stands with the first of the blocks.
    pub sequence: Option<u32>,
    /// The plain blocks, of which the words count; none if the line goes.
    pub blocks: BlockList,
}

/// What becomes of a block of the tape.
#[derive(Debug, Drop)]
pub enum Step {
    /// Its line stays, byte for byte.
    Kept,
    /// Plain blocks stand in place of its line.
    Written(Replaced),
}

/// What becomes of the blocks of a program, in their order.
pub type StepList = ListOf<Step>;
