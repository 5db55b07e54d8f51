//! What stands between the worker of a path and the table that both paths share: a stepper.
ghost use Rattle.std.specs.Prelude.{◌≡◌, [], ◌∷◌, List, Option};

use crate::{Drain, Halt, Next};
use nc_number::Path;

/// A call of a stepper.
#[derive(Debug, Drop)]
pub enum Call {
    /// A step of the path, and what it answered.
    Step { path: Path, answer: Next },
    /// The line of the path was drained after so many moves.
    Drained { path: Path, count: u64 },
    /// The run was halted.
    Halt(Halt),
}

/// Gives a path its steps. It means the list of its calls, in order, if it tells that.
pub trait Stepper {
    ghost use Rattle.nc_outside.specs.Calls.{IsCalled, IsOfTurret};
    ghost use Rattle.nc_outside.specs.declared.stepper.Call.{Call};
    ghost use Rattle.nc_outside.specs.declared.stepper.Call.TheVariants as Call;

    /// What tells one stepper from another, as the table and the path that it belongs to.
    type Origin;

    /// The calls that it had, each step with what it answered, if it tells that.
    ghost calls: { Self → Option (List Call) };

    /// The table and the path that the stepper belongs to, which no call changes.
    ghost origin: { Self → Self.Origin };

    /// Makes the path's next step.
    fn step(&mut self, path: Path) -> Next
        ensures calls { IsCalled (calls self.old) (calls self.new) (Call.Step path result ∷ []) }
        ensures origin { origin self.new ≡ origin self.old };

    /// Halts the run because a turret failed.
    fn halt(&mut self, why: Halt)
        requires { IsOfTurret why }
        ensures calls { IsCalled (calls self.old) (calls self.new) (Call.Halt why ∷ []) }
        ensures origin { origin self.new ≡ origin self.old };
}

/// A stepper that is told of drains, by proofs of the type `P` alone.
pub trait Drainable<P: Drain>: Stepper {
    ghost use Rattle.nc_outside.specs.Calls.{IsCalled};
    ghost use Rattle.nc_outside.specs.declared.stepper.Call.TheVariants as Call;

    /// The line of the path was drained after the last moves that were answered to it.
    fn drained(&mut self, path: Path, proof: P)
        ensures calls { IsCalled (Self.calls self.old) (Self.calls self.new) (Call.Drained path (P.count proof) ∷ []) }
        ensures origin { Self.origin self.new ≡ Self.origin self.old };
}
