//! A move over a contour as it is seen: passes run along its Z, and lie below each other in its X.

/// How a move runs, as it is seen.
#[derive(Clone, Copy, Debug, PartialEq, Eq)]
pub enum Leg {
    /// At rapid traverse.
    Rapid,
    /// Along a line.
    Cut,
    /// Along an arc.
    Round {
        /// Whether it goes clockwise.
        clockwise: bool,
        /// From its start to its centre across the passes, a radius value.
        i: i64,
        /// From its start to its centre along the passes, a radius value.
        k: i64,
    },
}

/// A move as it is seen; an axis without a value stays where it is.
#[derive(Clone, Copy, Debug, PartialEq, Eq)]
pub struct SeenMove {
    /// How it runs.
    pub leg: Leg,
    /// Where it leads to across the passes.
    pub x: Option<i64>,
    /// Where it leads to along the passes.
    pub z: Option<i64>,
}
