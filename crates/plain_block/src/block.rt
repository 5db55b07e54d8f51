//! A plain block, how the forms make one, and where the tool is after it.
ghost use Rattle.std.specs.Prelude.{◌≡◌};
ghost use Rattle.plain_block.specs.Blocks.{across_to, along_to, straight_to};
ghost use Rattle.plain_block.specs.Places.{point_after};

use crate::course::Course;
use nc_number::Point;

/// A block that the control runs as it stands.
#[derive(Clone, Copy, Debug, PartialEq, Eq)]
pub enum PlainBlock {
    /// A move. An axis without a word stays where it is.
    Move {
        /// How it moves.
        course: Course,
        /// Where it moves to in X, a diameter in 0.001 mm.
        x: Option<i64>,
        /// Where it moves to in Z, in 0.001 mm.
        z: Option<i64>,
    },
    /// A rest by G04, in milliseconds.
    Dwell {
        ms: u64,
    },
}

impl PlainBlock {
    /// A block that moves across alone, in X.
    pub fn across_to(course: Course, x: i64) -> PlainBlock
        ensures { result ≡ across_to course x }
    {
        PlainBlock::Move {
            course,
            x: Some(x),
            z: None,
        }
    }

    /// A block that moves along alone, in Z.
    pub fn along_to(course: Course, z: i64) -> PlainBlock
        ensures { result ≡ along_to course z }
    {
        PlainBlock::Move {
            course,
            x: None,
            z: Some(z),
        }
    }

    /// A block that moves in X and in Z.
    pub fn straight_to(course: Course, point: &Point) -> PlainBlock
        ensures { result ≡ straight_to course point.now }
    {
        PlainBlock::Move {
            course,
            x: Some(point.x),
            z: Some(point.z),
        }
    }

    /// Where the tool is after the block, if it was at `from` before.
    pub fn point_after(&self, from: &Point) -> Point
        ensures { result ≡ point_after from.now self.now }
    {
        match *self {
            PlainBlock::Move { x, z, .. } => Point {
                x: x.unwrap_or(from.x),
                z: z.unwrap_or(from.z),
            },
            PlainBlock::Dwell { .. } => *from,
        }
    }
}
