//! A table that keeps what it began with. It also knows whether the moves of the last record were
//! answered. The plain table is in table.rt.
ghost use Rattle.std.specs.Prelude.{◌≡◌, ◌≢◌, true, false, Some, IfSome, IfNone, MatchOption};
ghost use Rattle.nc_outside.specs.Calls.{IsOfTurret};
ghost use Rattle.nc_outside.specs.declared.halt.Halt.{Halt as AnyHalt};
ghost use Rattle.nc_outside.specs.declared.halt.Halt.TheVariants as halt;
ghost use Rattle.nc_outside.specs.declared.halt.Next.TheVariants as next;
ghost use Rattle.seat_table.specs.Turning.{Answers, AsksDrain, first_reason, once_drained};
ghost use Rattle.run_table.specs.Draining.{with_drained, StandsAsTold};
ghost use Rattle.nc_number.specs.Both.{of_path};
ghost use Rattle.run_table.specs.Ending.{HasEnded, HasNotEnded, KeepsRest};
ghost use Rattle.run_table.specs.Holding.{held_of, waits_at, drains_at, IsOf, ShowsFlushed, MayHold, MayHoldAgain, HasStepped, IsTaken, told_since};

use crate::handing::{is_still_shown, next_of};
use crate::table::Table;
use disk_model::Disk;
use nc_moves::MoveList;
use nc_number::Path;
use nc_outside::{Halt, Next, Reason};
use seat_table::Turns;
use std::marker::{Brand, Model, PhantomData};

/// What a table began with. The call that makes one picks it.
pub trait Opening<D> {
    ghost use Rattle.std.specs.Prelude.{Option};
    ghost use Rattle.run_table.specs.Kept.{TableView};

    /// The table as it was then.
    ghost opened: { Option (TableView D) };
}

impl<D> Opening<D> for Brand {
    ghost use Rattle.std.specs.Prelude.{None};

    ghost opened = { None };
}

/// A table of the opening O, of which two paths take turns. It is what has come of the table as it
/// was then: a run of the same pair, with more records.
#[derive(Drop)]
pub struct Held<D: Disk, O: Opening<D>> {
    /// The table as it is now.
    table: Table<D>,
    /// Whether the moves of its last record were answered.
    shown: bool,
    /// The opening.
    of: PhantomData<O>,
}

impl<D: Disk, O: Opening<D>> Model for Held<D, O> {
    ghost use Rattle.std.specs.Coded.{codes};
    ghost use Rattle.nc_verify.specs.contracts.verified.Verified.{the_row};
    ghost use Rattle.run_table.specs.Holding.{HeldView, held_of, IsHeld};

    ghost Value = { HeldView D };

    ghost coded = { Prim.hlevel (codes, the_row.coded) };

    ghost view = { λ h. held_of h.table h.shown };

    ghost invariant = { λ h. IsHeld D.state O.opened h.table h.shown };
}

impl<D: Disk, O: Opening<D>> Held<D, O> {
    /// Holds the table under this opening. What its records since the opening told the turrets must be
    /// what those tell that are on the disk.
    pub fn new(table: Table<D>) -> Held<D, O>
        requires { MayHold D.state O.opened table }
        ensures { result ≡ held_of table true }
    {
        Held {
            table,
            shown: true,
            of: PhantomData,
        }
    }

    /// Why the run has ended, with all its records on the disk. None if a path can go on.
    ///
    /// Of several causes it is the first of: a fault of the disk, an alarm, the ends of both paths,
    /// a full journal, a spent budget. A turret that failed is none of them. The records that pend
    /// are written before the answer, and if the disk fails in that, this is the end.
    pub fn end(&mut self) -> Option<Reason>
        ensures ends { IfSome result (λ end. HasEnded self.new end) }
        ensures goes_on { IfNone result (HasNotEnded self.new) }
        ensures rest { KeepsRest self.old self.new result }
        ensures same { (p : Path) → told_since O.opened self.new p ≡ told_since O.opened self.old p }
    {
        self.table.ended()
    }

    /// Gives back the table. It no longer keeps a turret's fault as the reason why it stopped.
    /// Unless its disk has failed it may be held again under the same opening.
    pub fn into_table(self) -> Table<D>
        ensures of { IsOf D.state O.opened result }
        ensures taken { IsTaken self result }
        ensures stands { result.halt ≢ Some halt.Disk
            → (path : Path) → StandsAsTold result.verified result.machine path (of_path result.resting path) }
        ensures shown { ShowsFlushed O.opened self result }
        ensures again { result.halt ≢ Some halt.Disk → MayHoldAgain D.state O.opened self result }
    {
        let Held {
            mut table,
            shown: _,
            of: _,
        } = self;
        table.drop_turret();
        table
    }
}

impl<D: Disk, O: Opening<D>> Turns for Held<D, O> {
    ghost use Rattle.run_table.specs.Holding.{told_since, waits_at, drains_at};

    ghost told = { λ h path. told_since O.opened h path };

    ghost reason = { λ h. h.halt };

    ghost waits = { λ h path. waits_at h path };

    ghost drains = { λ h path. drains_at h path };

    fn waits(&self, path: Path) -> bool
        ensures { result ≡ waits_at self.now path }
    {
        self.table.waits(path)
    }

    fn turn_step(&mut self, path: Path) -> Option<Next>
        ensures step { HasStepped D.state path self.old self.new result }
        ensures answer { MatchOption result (self.new ≡ self.old) (λ next. Answers
            (told_since O.opened self.old path) next (told_since O.opened self.new path)) }
        ensures others { (p : Path) → p ≢ path
            → told_since O.opened self.new p ≡ told_since O.opened self.old p }
        ensures waits { MatchOption result (waits_at self.old path ≡ true) (λ _. waits_at self.old path ≡ false) }
        ensures drains { AsksDrain (drains_at self.old path) result (drains_at self.new path) }
        ensures halted { (why : AnyHalt) → self.old.halt ≡ Some why → (result ≡ Some (next.Halted why))
            × (self.new.halt ≡ Some why)
            × ((p : Path) → told_since O.opened self.new p ≡ told_since O.opened self.old p) }
    {
        let before = self.table.count();
        let mut moves = MoveList::empty();
        let step = self.table.step_into(path, &mut moves);
        let after = self.table.count();
        let shown = is_still_shown(self.shown, &step, before, after);
        self.shown = shown;
        next_of(step, moves)
    }

    fn drained(&mut self, path: Path)
        ensures new { self.new ≡ record self.old { resting = with_drained path self.old.resting } }
        ensures drained { drains_at self.new path ≡ once_drained (drains_at self.old path) }
        ensures told { (p : Path) → told_since O.opened self.new p ≡ told_since O.opened self.old p }
        ensures reason { self.new.halt ≡ self.old.halt }
    {
        self.table.drained(path);
    }

    fn halt(&mut self, why: Halt)
        requires { IsOfTurret why }
        ensures new { self.new ≡ record self.old { halt = first_reason self.old.halt why } }
        ensures told { (p : Path) → told_since O.opened self.new p ≡ told_since O.opened self.old p }
        ensures reason { self.new.halt ≡ first_reason self.old.halt why }
    {
        self.table.halt(why);
    }
}
