//! A nose in force along a contour: its side and radius, what lies before and after the contour, and
//! why there is no path.
use plane_ways::{Line, Place, Side};

/// How far a leg may be from the radius beside its line, and the path nearer to the contour than
/// the radius: 0.002 mm.
pub const OFF: u128 = 4;

/// The largest radius of a nose: 1 m, in 0.0005 mm.
pub const LARGEST_RADIUS: u128 = 2_000_000;

/// How compensation begins and ends at an outer corner (parameters SUP and SUV of the 30i).
#[derive(Clone, Copy, Debug, PartialEq, Eq)]
pub enum StartUp {
    /// Type A: square to the contour.
    Square,
    /// Type B: as at any other corner.
    Cornered,
}

/// A nose in force: on which side of the contour it is, its radius in 0.0005 mm, and how
/// compensation begins and ends.
#[derive(Clone, Copy, Debug, PartialEq, Eq)]
pub struct Nose {
    pub side: Side,
    pub radius: u128,
    pub start_up: StartUp,
}

/// What lies before and after a contour with compensation.
#[derive(Clone, Copy, Debug, PartialEq, Eq)]
pub struct Ends {
    /// Where the nose's centre is before the block with G41 or G42.
    pub start: Place,
    /// The place from which that block is written.
    pub before: Place,
    /// The place to which the block with G40 is written.
    pub after: Place,
    /// Where the nose's centre is after it.
    pub end: Place,
}

/// A corner of the path: where the leg before it ends, and where the next one begins.
#[derive(Clone, Copy, Debug, PartialEq, Eq)]
pub struct Turn {
    pub to: Place,
    pub from: Place,
}

/// A leg, and where the next one begins.
#[derive(Clone, Copy, Debug, PartialEq, Eq)]
pub struct Step {
    pub leg: Line,
    pub from: Place,
}

/// Why there is no path.
#[derive(Clone, Copy, Debug, PartialEq, Eq)]
pub enum NoseCause {
    /// The contour has no line, or one of its lines has no length.
    NoLength,
    /// The nose does not fit beside the line: its leg is used up.
    UsedUp,
    /// The leg, or the move from it to the next one, comes too near to a line of the contour.
    TooNear,
}

/// Why there is no path, and at which leg: leg 0 leads to the contour, leg n is beside its line of
/// number n - 1, from 0, and the last leg leads off it.
#[derive(Clone, Copy, Debug, PartialEq, Eq)]
pub struct NoseFault {
    pub cause: NoseCause,
    pub leg: usize,
}
