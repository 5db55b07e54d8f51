//! What a turret got: its place, a move, or a rest. The contracts of lines, workers and runs list
//! it.
use crate::{LinedMove, Rest};
use nc_number::Point;

/// One thing that a turret got.
#[derive(Clone, Copy, Debug, PartialEq, Eq)]
pub enum Got {
    /// The turret was placed at a point, before its first move.
    Placed(Point),
    /// The turret got a move, with the line of its block.
    Moved(LinedMove),
    /// The turret made all that it got before, and stood still.
    Rested(Rest),
}
