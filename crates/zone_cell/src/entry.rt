//! What one line of a text of zones says: how a path lies in the cell, or the gap.
//! For this crate alone: named.rt reads it, and cell.rt takes it into the zones.
use nc_number::{Path, Point};

/// What a line of a text of zones says.
#[derive(Clone, Copy, Debug, PartialEq, Eq)]
pub(crate) enum Entry {
    /// An empty line, or a comment.
    Nothing,
    /// Where the origin of a path lies in the cell.
    Frame { path: Path, to: Point },
    /// The path sees X from the other side.
    Mirror(Path),
    /// How far apart the paths are to stay, in X or in Z.
    Gap(Point),
}
