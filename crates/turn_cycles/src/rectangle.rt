//! The four moves of a canned cycle, round the rectangle between its start and its end. Where the
//! end lies is in end.rt. pass.rt of this crate and tests call `cycle`. A further cycle has its
//! lines in specs Cycles and Pass too.
ghost use Rattle.std.specs.Prelude.{◌≡◌, IfOk};
ghost use Rattle.nc_number.specs.Position.{IsPosition};
ghost use Rattle.motion_track.specs.Within.{AreMovesWithin};
ghost use Rattle.turn_cycles.specs.Cycles.{cycle_of};

use code_tables::CodeKind;
use motion_track::{LONGEST, MotionFault, is_feed_zero};
use nc_moves::Move;
use nc_number::{Cause, Point, Value};

/// Which cycle, by its code in system A.
#[derive(Clone, Copy, Debug, PartialEq, Eq)]
pub enum CycleKind {
    /// Cuts along Z.
    G90,
    /// Threads along Z.
    G92,
    /// Cuts along X.
    G94,
}

impl CycleKind {
    ghost use Rattle.turn_cycles.specs.Pass.{cycle_kind_of};

    /// The cycle of a code, if it has one.
    pub fn of(kind: CodeKind) -> Option<Self>
        ensures { result ≡ cycle_kind_of kind }
    {
        match kind {
            CodeKind::CycleTurn => Some(CycleKind::G90),
            CodeKind::CycleThread => Some(CycleKind::G92),
            CodeKind::CycleFace => Some(CycleKind::G94),
            _ => None,
        }
    }
}

/// The moves of a cycle, in machine coordinates. G90 and G92 go first across to the end's X, G94
/// first along to the end's Z; the last move leads back to the start. The feed of G90 and G94 is by
/// the revolution (`per_rev`) or by the minute, that of G92 is the lead of its thread. Alarm 44
/// exactly where the feed is 0.
#[tactic(auto, using(crate::proofs::Positions::cycle_within))]
pub fn cycle(
    kind: CycleKind,
    start: Point,
    end: Point,
    feed: Value,
    per_rev: bool,
) -> Result<[Move; 4], MotionFault>
    ensures moves { result ≡ cycle_of kind start end feed per_rev }
    ensures within { IsPosition start → IsPosition end → IfOk result (AreMovesWithin LONGEST) }
{
    if is_feed_zero(&feed) {
        return Err(MotionFault::of(Cause::FeedZero));
    }
    let across = Point {
        x: end.x,
        z: start.z,
    };
    let along = Point {
        x: start.x,
        z: end.z,
    };
    let rapid = |to: Point| Move::Rapid { to };
    let cut = |to: Point| Move::Feed { to, feed, per_rev };
    let thread = |to: Point| Move::Thread { to, lead: feed };
    Ok(match kind {
        CycleKind::G90 => [rapid(across), cut(end), cut(along), rapid(start)],
        CycleKind::G92 => [rapid(across), thread(end), rapid(along), rapid(start)],
        CycleKind::G94 => [rapid(along), cut(end), cut(across), rapid(start)],
    })
}
