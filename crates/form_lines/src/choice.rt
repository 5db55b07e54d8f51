//! What a line says of the forms: a variant for each.
use nc_number::Point;
use plain_form::{Nose, Roots, TapTurns};

/// A choice of the machine. Lengths are in 0.001 mm; those across are radii.
#[derive(Clone, Copy, Debug, PartialEq, Eq)]
pub(crate) enum Choice {
    /// How deep a pass of G71 and G72 cuts.
    RoughDepth(u64),
    /// How far the tool draws back after a pass of G71 and G72.
    RoughRetreat(u64),
    /// To which side a depth of G76 that is a root is rounded.
    ThreadRoots(Roots),
    /// How many passes of G76 are at the whole depth.
    ThreadPasses(u8),
    /// How far before its end a thread is left, in tenths of its lead.
    ThreadPullOut(u8),
    /// The angle of a thread's tip in degrees.
    ThreadAngle(u8),
    /// The least depth of a cut of G76.
    ThreadLeast(u64),
    /// What G76 leaves for the passes at the whole depth.
    ThreadLeft(u64),
    /// How far G74 and G75 draw back after a peck.
    GrooveRetreat(u64),
    /// How far G83 draws back after a peck; `None` to the level of its start.
    PeckRetreat(Option<u64>),
    /// How far before the depth reached a peck of G83 begins to cut.
    PeckClearance(u64),
    /// The codes about a tap; `None` if there are none.
    TapCodes(Option<TapTurns>),
    /// A letter of words that move neither X nor Z.
    Idle(u8),
    /// The nose of a tool.
    ToolNose(Nose),
    /// The second reference position, in machine coordinates.
    SecondHome(Point),
}
