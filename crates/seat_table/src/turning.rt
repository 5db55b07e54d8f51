//! What a table does in one turn of a path: the trait `Turns`. How a turn is taken is in `taking`.
ghost use Rattle.std.specs.Prelude.{◌≡◌, ◌≢◌, true, false, List, Some, MatchOption};
ghost use Rattle.nc_outside.specs.Calls.{IsOfTurret};
ghost use Rattle.nc_outside.specs.declared.halt.Halt.{Halt as Reason};
ghost use Rattle.nc_outside.specs.declared.halt.Next.TheVariants.{Halted};
ghost use Rattle.seat_table.specs.Turning.{Answers, AsksDrain, first_reason, once_drained};

use nc_number::Path;
use nc_outside::{Halt, Next};

/// A table at which two paths take turns.
pub trait Turns {
    ghost use Rattle.std.specs.Prelude.{Bool, Option};
    ghost use Rattle.nc_number.specs.declared.path.Path.{Path};
    ghost use Rattle.nc_outside.specs.declared.got.Got.{Got};
    ghost use Rattle.nc_outside.specs.declared.halt.Halt.{Halt};
    ghost use Rattle.seat_table.specs.Turning.{Draining};

    /// For each path its tellings since the table was opened: the moves and rests that its steps
    /// answered. A record that did not get to the disk has no move here.
    ghost told: { Self → Path → List Got };

    /// Why the table has halted, if it has. It makes no record then.
    ghost reason: { Self → Option Halt };

    /// Whether the path waits. A step of the other path may end that, and a halt does.
    ghost waits: { Self → Path → Bool };

    /// Whether the path is to be drained before it goes on.
    ghost drains: { Self → Path → Draining };

    /// Whether the path waits.
    fn waits(&self, path: Path) -> bool
        ensures { result ≡ waits self.now path };

    /// One step of the path. The answer is none exactly if the path waits; then nothing changes. It
    /// is `Drain` exactly if the path is to be drained, and was not asked for that yet; until it was
    /// drained the answer is `Silent` then, and nothing is done. A table that has halted answers
    /// why, and makes no record.
    fn turn_step(&mut self, path: Path) -> Option<Next>
        ensures answer { MatchOption result (self.new ≡ self.old)
            (λ next. Answers (told self.old path) next (told self.new path)) }
        ensures others { (p : Path) → p ≢ path → told self.new p ≡ told self.old p }
        ensures waits { MatchOption result (waits self.old path ≡ true) (λ _. waits self.old path ≡ false) }
        ensures drains { AsksDrain (drains self.old path) result (drains self.new path) }
        ensures halted { (why : Reason) → reason self.old ≡ Some why → (result ≡ Some (Halted why))
            × (reason self.new ≡ Some why) × ((p : Path) → told self.new p ≡ told self.old p) };

    /// The turret of the path has made what was answered to it before, and stands still, so that
    /// the path may come to the wait for which that was asked.
    fn drained(&mut self, path: Path)
        ensures drained { drains self.new path ≡ once_drained (drains self.old path) }
        ensures told { (p : Path) → told self.new p ≡ told self.old p }
        ensures reason { reason self.new ≡ reason self.old };

    /// Halts the run since a turret failed. The first reason stays.
    fn halt(&mut self, why: Halt)
        requires { IsOfTurret why }
        ensures told { (p : Path) → told self.new p ≡ told self.old p }
        ensures reason { reason self.new ≡ first_reason (reason self.old) why };
}

impl<C: Turns> Turns for Box<C> {
    ghost told = { λ b. C.told b.value };

    ghost reason = { λ b. C.reason b.value };

    ghost waits = { λ b. C.waits b.value };

    ghost drains = { λ b. C.drains b.value };

    fn waits(&self, path: Path) -> bool {
        self.as_ref().waits(path)
    }

    fn turn_step(&mut self, path: Path) -> Option<Next> {
        self.as_mut().turn_step(path)
    }

    fn drained(&mut self, path: Path) {
        self.as_mut().drained(path);
    }

    fn halt(&mut self, why: Halt) {
        self.as_mut().halt(why);
    }
}
