//! A label and the line of its block. What a label is, is in block_order.
use block_order::Label;

/// A label, and the line of its block. The place past a program's last block has that block's line,
/// or that of the O number if the program has no block.
#[derive(Clone, Copy, Debug, PartialEq, Eq)]
pub struct Labelled {
    /// A wait, `End`, `Again` (M99 of the main program) or `Off` (past the last block).
    pub label: Label,
    /// The line of its block on the tape, from 1.
    pub line: u32,
}
