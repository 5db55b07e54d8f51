//! A stretch of a path: a move, or the stand at the beginning, and the area in the cell that the
//! body of its tool may touch meanwhile.
use zone_area::Area;

/// What a path does in a stretch.
#[derive(Clone, Copy, Debug, PartialEq, Eq)]
pub enum Source {
    /// It stands where it was when it began.
    Start,
    /// It makes a move of this line of its tape, counted from 1.
    Line(u32),
}

/// What a path does at one time, and what the body of its tool may touch meanwhile.
#[derive(Clone, Copy, Debug, PartialEq, Eq)]
pub struct Stretch {
    /// What the path does.
    pub source: Source,
    /// The tool in force, as the first two digits of a T word name it.
    pub tool: u16,
    /// Whether it is a rapid move.
    pub rapid: bool,
    /// What the body may touch, as it lies in the cell.
    pub area: Area,
}
