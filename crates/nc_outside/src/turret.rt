//! What makes the moves of a path: the trait of a turret. A machine builder writes their own.
ghost use Rattle.std.specs.Prelude.{◌≡◌, [], ◌∷◌, IsErr, OnOk, OnErr};
ghost use Rattle.nc_outside.specs.Faults.{CountsFault};

use crate::{Got, LinedMove, Rest};
use nc_number::{Failed, Point};

/// A turret of the lathe, which means the list of what it got, in order. A call that failed adds
/// nothing to it. Only a call that failed raises its count of faults.
///
/// It can be dropped, so that a thread can own it.
pub trait Turret: Drop {
    ghost use Rattle.nc_outside.specs.Received.{TurretState, Receives};

    /// What the turret got and how many calls it has had, if it tells that, and how often it has
    /// failed.
    ghost state: { Self → TurretState };

    /// How often the turret has failed.
    fn faults(&self) -> u64
        ensures { result ≡ (state self.now).faults };

    /// Places the tool at a point in machine coordinates.
    fn place(&mut self, at: Point) -> Result<(), Failed>
        ensures ok { OnOk result (Receives (state self.old) (state self.new) (Got.Placed at ∷ []) 1) }
        ensures err { OnErr result (Receives (state self.old) (state self.new) [] 1) }
        ensures fault { CountsFault (state self.old).faults (state self.new).faults (IsErr result) };

    /// Hands over one move, with the line of its block. It may return before the move is made: a
    /// turret may queue what it gets, and look ahead.
    fn hand(&mut self, what: &LinedMove) -> Result<(), Failed>
        ensures ok { OnOk result (Receives (state self.old) (state self.new) (Got.Moved what.now ∷ []) 1) }
        ensures err { OnErr result (Receives (state self.old) (state self.new) [] 1) }
        ensures fault { CountsFault (state self.old).faults (state self.new).faults (IsErr result) };

    /// Waits until the turret has made every move that it got, and stands still: Ok says that it
    /// does. It is told where its path stands then: at its place, before which wait, or at the end.
    fn settle(&mut self, at: Rest) -> Result<(), Failed>
        ensures ok { OnOk result (Receives (state self.old) (state self.new) (Got.Rested at ∷ []) 1) }
        ensures err { OnErr result (Receives (state self.old) (state self.new) [] 1) }
        ensures fault { CountsFault (state self.old).faults (state self.new).faults (IsErr result) };
}
