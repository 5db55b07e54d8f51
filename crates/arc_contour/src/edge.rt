//! The edges of what lies inside a contour.

use crate::way::Way;
use nc_number::Point;

/// Which bound of the contour: an arc whose ends lie at two distances from its centre passes
/// between two circles.
#[derive(Clone, Copy, Debug, PartialEq, Eq)]
pub enum Bound {
    /// All that the contour may enclose: no pass enters it.
    Outer,
    /// What the contour encloses in any case: the finish does not enter it.
    Inner,
}

/// An edge of what lies inside a contour, from where the edge before it ends.
#[derive(Clone, Copy, Debug, PartialEq, Eq)]
pub enum Edge {
    /// A line.
    Straight {
        /// Where it ends.
        to: Point,
    },
    /// An arc of a circle.
    Curved {
        /// Which way the passes run.
        way: Way,
        /// Where it ends.
        to: Point,
        /// The centre of its circle.
        centre: Point,
        /// The square of the circle's radius, in 0.0005 mm.
        square: u128,
        /// Whether it bulges outward: the inside is in the circle, else beside it.
        bulges: bool,
    },
}
