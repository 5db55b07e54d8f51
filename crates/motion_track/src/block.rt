//! The moves of a block. The moves of cycles (G90, G92, G94) are not here. Tests call `return_home`.
ghost use Rattle.std.specs.Prelude.{◌≡◌, ◌≤◌, [], ◌∷◌, length, IfOk};
ghost use Rattle.nc_number.specs.Position.{IsPosition};
ghost use Rattle.motion_track.specs.Block.{IsBlockWithin, AllEnd, KeepsUnnamed, moves_due, moves_of};
ghost use Rattle.motion_track.specs.Within.{AreMovesWithin};

use crate::centre::centre_of;
use crate::circle::arc;
use crate::cut::{line, thread};
use crate::fault::MotionFault;
use crate::reference::home;
use crate::targets::{LONGEST, target};
use code_tables::CodeKind;
use nc_moves::{Move, MoveList};
use nc_number::{Axis, Point, Value};

/// The zero of the machine's own coordinates.
const ORIGIN: Point = Point { x: 0, z: 0 };

/// What the motion of a block hangs on: its words, and the state of its path. Points are in machine
/// coordinates; lengths are in 0.001 mm.
#[derive(Clone, Copy, Debug, PartialEq, Eq)]
pub struct BlockMotion {
    /// Where the turret stands before the block.
    pub start: Point,
    /// The sum of the offsets in force.
    pub shift: Point,
    /// The reference position.
    pub home: Point,
    /// What X or U says.
    pub x: Axis,
    /// What Z or W says.
    pub z: Axis,
    /// From an arc's start to its centre along X, a radius value.
    pub i: Option<i64>,
    /// From an arc's start to its centre along Z.
    pub k: Option<i64>,
    /// An arc's radius.
    pub r: Option<i64>,
    /// The feed of a cut or the lead of a thread; 0 where there is none.
    pub feed: Value,
    /// Whether the feed is by the revolution.
    pub per_rev: bool,
}

/// The moves of a block whose code is of this kind, at most two.
///
/// G00, G01, G02, G03, G28, G32 and G53 move where an axis is named, G02 and G03 also by I or K
/// alone, which is a full circle; elsewhere there is no move and no alarm. Of the alarms 41 of the
/// target goes first, then those of an arc or a cut. Other kinds have no move here: the cycles, a
/// dwell, and what only sets something.
#[tactic(auto, using(crate::proofs::Ends::unnamed_stay, crate::proofs::Ends::moves_within))]
pub fn track(kind: CodeKind, block: &BlockMotion) -> Result<MoveList, MotionFault>
    requires { IsBlockWithin LONGEST block.now }
    ensures moves { result ≡ moves_of kind block.now }
    ensures few { IfOk result (λ moves. length moves ≤ 2) }
    ensures unnamed_axes_stay { IfOk result (AllEnd (KeepsUnnamed block.now)) }
    ensures within { IsPosition block.now.start → IsPosition block.now.home
        → IfOk result (AreMovesWithin LONGEST) }
{
    if block.is_move_due(kind) {
        moves_due(kind, block)
    } else {
        Ok(MoveList::empty())
    }
}

/// The way home of a block with G28: for the named axes a rapid to the intermediate point, where
/// the axis words lead, and a rapid to the reference position; no move where none is named. Alarm
/// 41 exactly where the intermediate point is out of range.
pub fn return_home(block: &BlockMotion) -> Result<MoveList, MotionFault>
    requires { IsBlockWithin LONGEST block.now }
    ensures { result ≡ moves_of CodeKind.Home block.now }
{
    track(CodeKind::Home, block)
}

impl BlockMotion {
    ghost use Rattle.motion_track.specs.Block.{names_axis, is_move_due, target_in, arc_in};

    /// Whether the block names an axis.
    pub fn names_axis(&self) -> bool
        ensures { result ≡ names_axis self.now }
    {
        self.x.is_named() || self.z.is_named()
    }

    /// Whether a block of this kind moves: it names an axis, or gives a circle its centre.
    fn is_move_due(&self, kind: CodeKind) -> bool
        ensures { result ≡ is_move_due kind self.now }
    {
        match kind {
            CodeKind::ArcCw | CodeKind::ArcCcw => {
                self.names_axis() || self.i.is_some() || self.k.is_some()
            }
            _ => self.names_axis(),
        }
    }

    /// Where the axis words lead.
    fn target(&self) -> Result<Point, MotionFault>
        requires { IsBlockWithin LONGEST self.now }
        ensures { result ≡ target_in self.now }
    {
        target(self.start, self.shift, self.x, self.z)
    }

    /// An arc to where the axis words lead, round the centre of I, K and R; or its alarm.
    fn arc(&self, clockwise: bool) -> Result<Move, MotionFault>
        requires { IsBlockWithin LONGEST self.now }
        ensures { result ≡ arc_in clockwise self.now }
    {
        let to = self.target()?;
        let centre = centre_of(self.i, self.k, self.r);
        arc(self.start, to, clockwise, centre, self.feed, self.per_rev)
    }

    /// A rapid of the named axes to where their words lead, and one home.
    fn way_home(&self) -> Result<MoveList, MotionFault>
        requires { IsBlockWithin LONGEST self.now }
        ensures { result ≡ moves_due CodeKind.Home self.now }
    {
        let between = self.target()?;
        let mut list = MoveList::empty();
        list.append(&home(
            self.start,
            between,
            self.home,
            self.x.is_named(),
            self.z.is_named(),
        ));
        Ok(list)
    }
}

/// The moves of a block that moves.
fn moves_due(kind: CodeKind, block: &BlockMotion) -> Result<MoveList, MotionFault>
    requires { IsBlockWithin LONGEST block.now }
    ensures { result ≡ moves_due kind block.now }
{
    match kind {
        CodeKind::Rapid => Ok(one(Move::Rapid {
            to: block.target()?,
        })),
        CodeKind::Feed => Ok(one(line(block.target()?, block.feed, block.per_rev)?)),
        CodeKind::ArcCw => Ok(one(block.arc(true)?)),
        CodeKind::ArcCcw => Ok(one(block.arc(false)?)),
        CodeKind::Thread => Ok(one(thread(block.target()?, block.feed)?)),
        CodeKind::Home => block.way_home(),
        CodeKind::Machine => Ok(one(Move::Rapid {
            to: target(block.start, ORIGIN, block.x, block.z)?,
        })),
        _ => Ok(MoveList::empty()),
    }
}

/// A list of this move.
fn one(what: Move) -> MoveList
    ensures { result ≡ what ∷ [] }
{
    let mut list = MoveList::empty();
    list.push(what);
    list
}
