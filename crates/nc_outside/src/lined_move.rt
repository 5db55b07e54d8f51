//! A move and the line that it comes from.
use nc_moves::Move;

/// A move, and the line of its block in the tape.
#[derive(Clone, Copy, Debug, PartialEq, Eq)]
pub struct LinedMove {
    /// The line of the block in the tape, counted from 1.
    pub line: u32,
    /// The move, in machine coordinates.
    pub what: Move,
}
