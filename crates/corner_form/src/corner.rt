//! A corner between two lines, and why it can't be cut.
use nc_number::Point;
use plain_block::PlainBlock;
use plane_ways::Side;

/// The largest chamfer or radius of a corner: 1 m, in 0.001 mm.
pub const LARGEST_CORNER: u64 = 1_000_000;

/// How far the ends and the centre of a corner may be off: 0.001 mm, in 0.0005 mm.
pub const NEAR: u128 = 2;

/// How far the ends of an arc may be off the circle round its centre: 0.002 mm, in 0.0005 mm.
pub const ROUND: u128 = 4;

/// What is cut at a corner.
#[derive(Clone, Copy, Debug, PartialEq, Eq)]
pub enum CornerKind {
    /// `,C`: a line, whose ends are that far from the corner.
    Chamfer,
    /// `,R`: an arc of that radius, which touches both lines.
    Rounding,
}

/// A corner between two lines.
#[derive(Clone, Copy, Debug, PartialEq, Eq)]
pub struct Corner {
    /// Where the first line begins: where the tool is.
    pub from: Point,
    /// Where the lines meet.
    pub at: Point,
    /// Where the second line ends.
    pub to: Point,
    /// What is cut there.
    pub kind: CornerKind,
    /// How large, in 0.001 mm.
    pub size: u64,
}

/// The ends of a corner: on its first line, and on its second.
#[derive(Clone, Copy, Debug, PartialEq, Eq)]
pub struct CornerEnds {
    pub start: Point,
    pub end: Point,
}

/// A rounded corner.
#[derive(Clone, Copy, Debug, PartialEq, Eq)]
pub struct RoundCorner {
    /// Where its arc begins and ends.
    pub ends: CornerEnds,
    /// To which side the arc turns.
    pub side: Side,
    /// The centre in X from the arc's start, a radius value in 0.001 mm.
    pub i: i64,
    /// The centre in Z from it.
    pub k: i64,
}

/// The blocks that stand for the block that leads to a corner.
#[derive(Clone, Copy, Debug, PartialEq, Eq)]
pub struct CornerBlocks {
    /// Along the first line to the corner's start.
    pub first: PlainBlock,
    /// To the corner's end, which lies on the second line.
    pub second: PlainBlock,
}

/// Why a corner can't be cut.
#[derive(Clone, Copy, Debug, PartialEq, Eq)]
pub enum CornerFault {
    /// The size is above 1 m.
    TooLarge,
    /// A line has no length, or the second leads straight on or straight back.
    NoTurn,
    /// The corner is longer than a line.
    TooLong,
    /// What is written would be off by more than is said of it.
    Inexact,
}
