//! What one line of a text of zones by moves says: what a text by areas may say, and besides the
//! bodies of tools, what stands in the cell, and that Z is mirrored.
//! For this crate alone: cell_line.rt reads it, and plan.rt takes it into the cell.
use crate::entry::Entry;
use nc_number::Path;
use zone_area::Area;
use zone_moves::{Body, Keeps};

/// What a line of a text of zones by moves says.
#[derive(Clone, Copy, Debug, PartialEq, Eq)]
pub(crate) enum CellEntry {
    /// What a text by areas may say.
    Plain(Entry),
    /// That moves are judged one by one.
    ByMoves,
    /// The path counts Z from the other side.
    MirrorZ(Path),
    /// The body of a tool.
    Tool(Body),
    /// A box that stands in the cell, and that the bodies of the path must keep off.
    Fixed {
        path: Path,
        area: Area,
        keeps: Keeps,
    },
}
