//! How a plain block moves: at rapid traverse, along a line, along a thread, or round a centre.
use nc_number::Value;

/// Where the centre of an arc lies.
#[derive(Clone, Copy, Debug, PartialEq, Eq)]
pub enum ArcCentre {
    /// By I and K: from the arc's start, as radius values in 0.001 mm, `i` along X, `k` along Z.
    Offset { i: i64, k: i64 },
    /// By R: the arc's radius in 0.001 mm.
    Radius { r: i64 },
}

/// How a plain block moves. The feed of a cut is not part of it: it is that of its form.
#[derive(Clone, Copy, Debug, PartialEq, Eq)]
pub enum Course {
    /// G00.
    Rapid,
    /// G01.
    Cut,
    /// G32, with its lead in mm per revolution.
    Thread { lead: Value },
    /// G02 if clockwise, else G03.
    Arc { clockwise: bool, centre: ArcCentre },
}
