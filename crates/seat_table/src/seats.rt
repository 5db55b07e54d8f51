//! The table with its four seats, and the passes by which threads use them. One turn at the table is
//! in `taking`; what a table does in it, in `turning`.
ghost use Rattle.std.specs.Prelude.{◌≡◌, ◌++◌, [], ◌∷◌, IfOk, IfErr, IfSome, IsTrue, is_some};
ghost use Rattle.nc_number.specs.declared.path.Path.TheVariants.{One, Two};
ghost use Rattle.nc_outside.specs.Calls.{IsOfTurret};
ghost use Rattle.nc_outside.specs.declared.halt.Next.TheVariants.{Halted};
ghost use Rattle.nc_outside.specs.declared.stepper.Call.TheVariants.{Step};
ghost use Rattle.seat_table.specs.Knowing.{KeepsStop};
ghost use Rattle.seat_table.specs.Passes.{fresh_pass, fresh_halter, IsAsAtStop};
ghost use Rattle.seat_table.specs.Turning.{Answers};

use crate::knowing::{CutFirstHalt, CutSecond, CutSecondHalt, Knows, Law, Noted};
use crate::shelf::{lift, put_in, take_out};
use crate::taking::{Notice, Place, close_all, note, step_until, tell_until};
use crate::turning::Turns;
use atomic_table::{Refused, Table};
use nc_number::Path;
use nc_outside::{Call, Drain, Halt, Next};
use std::alloc::Global;
use std::marker::Model;
use std::sync::Wait;

/// A table at which two paths and the drives of their turrets have a seat each.
#[derive(Drop)]
pub struct SeatTable<C: Turns> {
    // A turn moves the table twice, and it may be large: so it lies on the heap.
    table: Table<Option<Box<C>>, Knows, (), Law, Global>,
}

impl<C: Turns> Model for SeatTable<C> {
    ghost use Rattle.std.specs.Prelude.{◌≡◌};
    ghost use Rattle.atomic_table.specs.Seated.{TableId};

    ghost Value = { TableId };

    ghost view = { λ t. t.table.shared.table_id };

    ghost invariant = { λ t. (t.table.shared.table_id.words ≡ 3) × (t.table.shared.table_id.slots ≡ 1) };
}

/// The right to step a path. It lists the tellings of the path that its steps made, and has what the
/// table was when it found it halted.
#[derive(Drop)]
pub struct SeatPass<C> {
    /// The seat at the table.
    place: Place<Box<C>>,
    /// The path that it may step.
    path: Path,
}

impl<C> Model for SeatPass<C> {
    ghost use Rattle.seat_table.specs.Knowing.{IsOf, steps, list_at, stop_at};
    ghost use Rattle.seat_table.specs.Passes.{Pass};

    ghost Value = { Pass };

    ghost view = { λ p. record {
      table = p.place.table_id;
      path = p.path;
      told = list_at p.path p.place.me;
      stop = stop_at p.place.me;
      calls = p.place.me.0.calls;
    } };

    ghost invariant = { λ p. IsOf (steps p.path) p.place.me };
}

/// The right to halt the run for the turret of a path. It has what the table was when the pass
/// found or made it halted.
#[derive(Drop)]
pub struct HaltPass<C> {
    /// The seat at the table.
    place: Place<Box<C>>,
    /// The path for whose turret it may halt the run.
    path: Path,
}

impl<C> Model for HaltPass<C> {
    ghost use Rattle.seat_table.specs.Knowing.{IsOf, halts, stop_at};
    ghost use Rattle.seat_table.specs.Passes.{Halter};

    ghost Value = { Halter };

    ghost view = { λ p. record {
      table = p.place.table_id;
      path = p.path;
      stop = stop_at p.place.me;
      calls = p.place.me.0.calls;
    } };

    ghost invariant = { λ p. IsOf (halts p.path) p.place.me };
}

/// A table with its four passes.
pub struct Seated<C: Turns> {
    /// The table, which all threads share.
    pub table: SeatTable<C>,
    /// The pass of path 1.
    pub first: SeatPass<C>,
    /// The pass of path 2.
    pub second: SeatPass<C>,
    /// The pass of the drive of path 1's turret.
    pub first_halt: HaltPass<C>,
    /// The pass of the drive of path 2's turret.
    pub second_halt: HaltPass<C>,
}

impl<C> SeatPass<C> {
    /// The path that it may step.
    pub fn path(&self) -> Path
        ensures { result ≡ self.now.path }
    {
        self.path
    }
}

impl<C: Turns> SeatTable<C> {
    /// A table that has made no record since it was opened, with the passes of its paths and of
    /// their drives. If memory ran out, the table comes back as the error.
    pub fn new(alloc: Global, table: C) -> Result<Seated<C>, C>
        requires { (p : Path) → C.told table p ≡ [] }
        ensures passes { IfOk result (λ s. (s.first ≡ fresh_pass s.table One) × (s.second ≡ fresh_pass s.table Two)) }
        ensures halters { IfOk result (λ s. (s.first_halt ≡ fresh_halter s.table One)
            × (s.second_halt ≡ fresh_halter s.table Two)) }
        ensures err { IfErr result (λ t. t ≡ table) }
    {
        match SeatTable::over(alloc, lift(alloc, table)?) {
            Ok(seated) => Ok(seated),
            Err(lifted) => Err(Box::into_inner(lifted)),
        }
    }

    /// A table on the heap that has made no record since it was opened, with its four passes. If
    /// memory ran out, the table comes back as the error.
    fn over(alloc: Global, table: Box<C>) -> Result<Seated<C>, Box<C>>
        requires { (p : Path) → C.told table.value p ≡ [] }
        ensures passes { IfOk result (λ s. (s.first ≡ fresh_pass s.table One) × (s.second ≡ fresh_pass s.table Two)) }
        ensures halters { IfOk result (λ s. (s.first_halt ≡ fresh_halter s.table One)
            × (s.second_halt ≡ fresh_halter s.table Two)) }
        ensures err { IfErr result (λ t. t ≡ table) }
    {
        let slots = put_in(alloc, table)?;
        match Table::new(alloc, &[0, 0, 0], slots, &()) {
            Ok((table, mut place)) => {
                let second = table.shared.split_seat::<CutSecond>(&mut place);
                let first_halt = table.shared.split_seat::<CutFirstHalt>(&mut place);
                let second_halt = table.shared.split_seat::<CutSecondHalt>(&mut place);
                Ok(Seated {
                    table: SeatTable { table },
                    first: SeatPass {
                        place,
                        path: Path::One,
                    },
                    second: SeatPass {
                        place: second,
                        path: Path::Two,
                    },
                    first_halt: HaltPass {
                        place: first_halt,
                        path: Path::One,
                    },
                    second_halt: HaltPass {
                        place: second_halt,
                        path: Path::Two,
                    },
                })
            }
            Err(refused) => {
                let Refused { slots } = refused;
                Err(take_out(slots))
            }
        }
    }

    /// One step of the path of the pass, once it has the turn and the path does not wait. A path
    /// that waits sleeps until its wait is over. Once the pass has found the table halted, each
    /// step answers why.
    pub fn step<R: Wait>(&self, rt: &R, pass: &mut SeatPass<C>) -> Next
        requires { pass.old.table ≡ self.now }
        ensures same { pass.new ≡ record pass.old { told = pass.new.told; stop = pass.new.stop } }
        ensures told { Answers pass.old.told result pass.new.told }
        ensures stop { KeepsStop pass.old.stop pass.new.stop }
        ensures halted { IfSome pass.old.stop (λ s. result ≡ Halted s.why) }
    {
        step_until(rt, &self.table.shared, &mut pass.place, pass.path)
    }

    /// Tells the table, once the pass has the turn, that the line of the path was drained after the
    /// last moves that were answered to it.
    pub fn drained<R: Wait, P: Drain>(&self, rt: &R, pass: &mut SeatPass<C>, proof: &P)
        requires { pass.old.table ≡ self.now }
        ensures same { pass.new ≡ record pass.old { stop = pass.new.stop } }
        ensures stop { KeepsStop pass.old.stop pass.new.stop }
    {
        let _ = proof;
        let notice = Notice::Drained(pass.path);
        tell_until(rt, &self.table.shared, &mut pass.place, notice);
    }

    /// Halts the run by the pass of a path, once it has the turn. From then on the table makes no
    /// record.
    pub fn halt_path<R: Wait>(&self, rt: &R, pass: &mut SeatPass<C>, why: Halt)
        requires { (pass.old.table ≡ self.now) × IsOfTurret why }
        ensures same { pass.new ≡ record pass.old { stop = pass.new.stop } }
        ensures stop { KeepsStop pass.old.stop pass.new.stop }
        ensures halted { IsTrue (is_some pass.new.stop) }
    {
        tell_until(rt, &self.table.shared, &mut pass.place, Notice::Halt(why));
    }

    /// Halts the run for the turret of a path, once it has the turn. From then on the table makes
    /// no record.
    pub fn halt<R: Wait>(&self, rt: &R, pass: &mut HaltPass<C>, why: Halt)
        requires { (pass.old.table ≡ self.now) × IsOfTurret why }
        ensures same { pass.new ≡ record pass.old { stop = pass.new.stop } }
        ensures stop { KeepsStop pass.old.stop pass.new.stop }
        ensures halted { IsTrue (is_some pass.new.stop) }
    {
        let notice = Notice::Halt(why);
        tell_until(rt, &self.table.shared, &mut pass.place, notice);
    }

    /// Notes a step that a stepper over the pass had, whose answer is only looked at.
    pub(crate) fn note_step<N: Noted>(&self, pass: &mut SeatPass<C>, path: Path, answer: &Next)
        requires { (pass.old.table ≡ self.now) × (N.calls ≡ Step path answer.now ∷ []) }
        ensures { pass.new ≡ record pass.old { calls = pass.old.calls ++ Step path answer.now ∷ [] } }
    {
        let _ = path;
        let _ = answer;
        note::<Box<C>, N>(&self.table.shared, &mut pass.place);
    }

    /// Notes another call (a drain or a halt) that a stepper over the pass had.
    pub(crate) fn note<N: Noted>(&self, pass: &mut SeatPass<C>, call: Call)
        requires { (pass.old.table ≡ self.now) × (N.calls ≡ call ∷ []) }
        ensures { pass.new ≡ record pass.old { calls = pass.old.calls ++ call ∷ [] } }
    {
        let _ = call;
        note::<Box<C>, N>(&self.table.shared, &mut pass.place);
    }

    /// Notes a call that a stepper over the pass of a drive had.
    pub(crate) fn note_halter<N: Noted>(&self, pass: &mut HaltPass<C>, call: Call)
        requires { (pass.old.table ≡ self.now) × (N.calls ≡ call ∷ []) }
        ensures { pass.new ≡ record pass.old { calls = pass.old.calls ++ call ∷ [] } }
    {
        let _ = call;
        note::<Box<C>, N>(&self.table.shared, &mut pass.place);
    }

    /// The table, whose tellings of each path are just those that the pass of the path lists. If a
    /// pass found it halted, or halted it, it is halted for that reason, and its tellings are those
    /// that it had then. It takes no turn, and waits for nobody.
    pub fn close(
        self,
        first: SeatPass<C>,
        second: SeatPass<C>,
        first_halt: HaltPass<C>,
        second_halt: HaltPass<C>,
    ) -> C
        requires table { (first.table ≡ self) × (second.table ≡ self)
            × (first_halt.table ≡ self) × (second_halt.table ≡ self) }
        requires paths { (first.path ≡ One) × (second.path ≡ Two)
            × (first_halt.path ≡ One) × (second_halt.path ≡ Two) }
        ensures first { C.told result One ≡ first.told }
        ensures second { C.told result Two ≡ second.told }
        ensures stops { IsAsAtStop C.told C.reason result first.stop × IsAsAtStop C.told C.reason result second.stop }
        ensures halts { IsAsAtStop C.told C.reason result first_halt.stop
            × IsAsAtStop C.told C.reason result second_halt.stop }
    {
        let SeatTable { table } = self;
        let SeatPass { place: one, .. } = first;
        let SeatPass { place: two, .. } = second;
        let HaltPass { place: third, .. } = first_halt;
        let HaltPass { place: fourth, .. } = second_halt;
        Box::into_inner(close_all(table, one, two, third, fourth))
    }
}
