//! Places of the plane in 0.0005 mm, in which the number of a diameter is that of its radius.

/// How far a place may lie from 0 along each axis: 200 m.
pub const FAR: u128 = 400_000_000;

/// How long a direction is made before its length is taken.
pub const LONG: u128 = 1_000_000_000_000;

/// A place, or the way from one place to another.
#[derive(Clone, Copy, Debug, PartialEq, Eq)]
pub struct Place {
    /// Across the axis of the spindle: a diameter in 0.001 mm is a radius in 0.0005 mm.
    pub across: i128,
    /// Along it, in 0.0005 mm.
    pub along: i128,
}

/// A side of a line, seen along the motion.
#[derive(Clone, Copy, Debug, PartialEq, Eq)]
pub enum Side {
    /// That of the tool under G41.
    Left,
    /// That of the tool under G42.
    Right,
}

/// A line from one place to another.
#[derive(Clone, Copy, Debug, PartialEq, Eq)]
pub struct Line {
    /// Where it begins.
    pub from: Place,
    /// Where it ends.
    pub to: Place,
}
