//! What was found in a segment of a run. The text of a list of them is in hit_lines.rt.
use zone_moves::Hit;

/// What was found in a segment.
#[derive(Clone, Copy, Debug, PartialEq, Eq)]
pub struct Finding {
    /// The code of the meeting that it begins with; none for the first segment.
    pub met: Option<u16>,
    /// What is hit in it, if anything.
    pub hit: Option<Hit>,
}
