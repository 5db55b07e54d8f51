//! Steppers over the passes of a table: one for the worker of a path, and one for the drive of its
//! turret. A stepper notes its calls, so that a clause can say which moves they answered.
ghost use Rattle.std.specs.Prelude.{◌≡◌, [], ◌∷◌, ◌++◌, IsTrue, is_some};
ghost use Rattle.nc_outside.specs.Calls.{told_by, IsOfTurret};
ghost use Rattle.nc_outside.specs.declared.halt.Next.TheVariants.{Silent};
ghost use Rattle.nc_outside.specs.declared.stepper.Call.TheVariants as Called;
ghost use Rattle.seat_table.specs.Passes.{has_halt};

use crate::seats::{HaltPass, SeatPass, SeatTable};
use crate::turning::Turns;
use atomic_table::Badge;
use nc_number::Path;
use nc_outside::{Call, Drain, Drainable, Halt, Next, Stepper};
use std::marker::{Brand, Model};
use std::sync::Wait;

/// A stepper over the pass of a path. It tells its calls, and what its steps answered for the turret
/// is what the pass lists. Each step is one of the path of the pass.
#[derive(Drop)]
pub struct SeatStepper<'a, C: Turns, R> {
    /// The table at which the pass has its seat.
    table: &'a SeatTable<C>,
    /// The runtime that lets the thread sleep.
    rt: &'a R,
    /// The pass of the path.
    pass: SeatPass<C>,
}

impl<'a, C: Turns, R> Model for SeatStepper<'a, C, R> {
    ghost use Rattle.std.specs.Prelude.{◌≡◌};
    ghost use Rattle.nc_outside.specs.Calls.{told_by};
    ghost use Rattle.seat_table.specs.Passes.{Pass};

    ghost Value = { Pass };

    ghost view = { λ s. s.pass };

    ghost invariant = { λ s. (s.pass.table ≡ s.table.now) × (told_by s.pass.calls ≡ s.pass.told) };
}

/// A stepper over the pass of a drive, which is for halts alone: its steps are silent, and take no
/// turn. It tells its calls, and if a halt is among them the pass has what the table was when the
/// pass found or made it halted.
#[derive(Drop)]
pub struct HaltStepper<'a, C: Turns, R> {
    /// The table at which the pass has its seat.
    table: &'a SeatTable<C>,
    /// The runtime that lets the thread sleep.
    rt: &'a R,
    /// The pass of the drive.
    pass: HaltPass<C>,
}

impl<'a, C: Turns, R> Model for HaltStepper<'a, C, R> {
    ghost use Rattle.std.specs.Prelude.{◌≡◌, IsTrue, is_some};
    ghost use Rattle.seat_table.specs.Passes.{Halter, has_halt};

    ghost Value = { Halter };

    ghost view = { λ s. s.pass };

    ghost invariant = { λ s. (s.pass.table ≡ s.table.now)
        × (IsTrue (has_halt s.pass.calls) → IsTrue (is_some s.pass.stop)) };
}

impl<C: Turns> SeatTable<C> {
    /// A stepper over the pass of a path.
    pub fn stepper<'a, R>(&'a self, rt: &'a R, pass: SeatPass<C>) -> SeatStepper<'a, C, R>
        requires table { pass.table ≡ self.now }
        requires told { told_by pass.calls ≡ pass.told }
        ensures { result ≡ pass }
    {
        SeatStepper {
            table: self,
            rt,
            pass,
        }
    }

    /// A stepper over the pass of a drive.
    pub fn halter<'a, R>(&'a self, rt: &'a R, pass: HaltPass<C>) -> HaltStepper<'a, C, R>
        requires table { pass.table ≡ self.now }
        requires told { IsTrue (has_halt pass.calls) → IsTrue (is_some pass.stop) }
        ensures { result ≡ pass }
    {
        HaltStepper {
            table: self,
            rt,
            pass,
        }
    }
}

impl<'a, C: Turns, R> SeatStepper<'a, C, R> {
    /// The pass. What the stepper's steps answered for the turret is what it lists.
    pub fn into_pass(self) -> SeatPass<C>
        ensures pass { result ≡ self.entry }
        ensures told { told_by result.calls ≡ result.told }
    {
        let SeatStepper { pass, .. } = self;
        pass
    }
}

impl<'a, C: Turns, R> HaltStepper<'a, C, R> {
    /// The pass. If the stepper had a halt, the table has halted, and the pass has what it was
    /// then.
    pub fn into_pass(self) -> HaltPass<C>
        ensures pass { result ≡ self.entry }
        ensures told { IsTrue (has_halt result.calls) → IsTrue (is_some result.stop) }
    {
        let HaltStepper { pass, .. } = self;
        pass
    }
}

/// Makes a step, notes it in the pass, and gives what it answered.
#[tactic(auto, using(crate::proofs::Telling::step_told))]
fn step_noted<C: Turns, R: Wait>(
    table: &SeatTable<C>,
    rt: &R,
    pass: &mut SeatPass<C>,
    path: Path,
) -> Next
    requires table { pass.old.table ≡ table.now }
    requires told { told_by pass.old.calls ≡ pass.old.told }
    ensures same { (pass.new.table ≡ pass.old.table) × (pass.new.path ≡ pass.old.path) }
    ensures calls { pass.new.calls ≡ pass.old.calls ++ Called.Step path result ∷ [] }
    ensures told { told_by pass.new.calls ≡ pass.new.told }
{
    let next = table.step(rt, pass);
    table.note_step::<Brand>(pass, path, &next);
    next
}

/// Tells the table that the path was drained, and notes it in the pass.
#[tactic(auto, using(crate::proofs::Telling::drain_told))]
fn drained_noted<C: Turns, R: Wait, P: Drain>(
    table: &SeatTable<C>,
    rt: &R,
    pass: &mut SeatPass<C>,
    path: Path,
    proof: P,
)
    requires table { pass.old.table ≡ table.now }
    requires told { told_by pass.old.calls ≡ pass.old.told }
    ensures same { (pass.new.table ≡ pass.old.table) × (pass.new.path ≡ pass.old.path) }
    ensures calls { pass.new.calls ≡ pass.old.calls ++ Called.Drained path (P.count proof) ∷ [] }
    ensures told { told_by pass.new.calls ≡ pass.new.told }
{
    table.drained(rt, pass, &proof);
    let count = proof.count();
    let call = Call::Drained { path, count };
    table.note::<Brand>(pass, call);
}

/// Halts the run, and notes it in the pass.
#[tactic(auto, using(crate::proofs::Telling::halt_told))]
fn halt_noted<C: Turns, R: Wait>(table: &SeatTable<C>, rt: &R, pass: &mut SeatPass<C>, why: &Halt)
    requires table { (pass.old.table ≡ table.now) × IsOfTurret why.now }
    requires told { told_by pass.old.calls ≡ pass.old.told }
    ensures same { (pass.new.table ≡ pass.old.table) × (pass.new.path ≡ pass.old.path) }
    ensures calls { pass.new.calls ≡ pass.old.calls ++ Called.Halt why.now ∷ [] }
    ensures told { told_by pass.new.calls ≡ pass.new.told }
{
    table.halt_path(rt, pass, *why);
    let call = Call::Halt(*why);
    table.note::<Brand>(pass, call);
}

/// Notes a call in the pass of a drive.
fn call_noted<C: Turns>(table: &SeatTable<C>, pass: &mut HaltPass<C>, call: Call)
    requires table { pass.old.table ≡ table.now }
    requires told { IsTrue (has_halt pass.old.calls) → IsTrue (is_some pass.old.stop) }
    requires halted { IsTrue (has_halt (call ∷ [])) → IsTrue (is_some pass.old.stop) }
    ensures noted { pass.new ≡ record pass.old { calls = pass.old.calls ++ call ∷ [] } }
    ensures told { IsTrue (has_halt pass.new.calls) → IsTrue (is_some pass.new.stop) }
{
    table.note_halter::<Brand>(pass, call);
}

/// Halts the run for a turret, and notes it in the pass of its drive.
fn halter_noted<C: Turns, R: Wait>(table: &SeatTable<C>, rt: &R, pass: &mut HaltPass<C>, why: &Halt)
    requires table { (pass.old.table ≡ table.now) × IsOfTurret why.now }
    ensures same { (pass.new.table ≡ pass.old.table) × (pass.new.path ≡ pass.old.path) }
    ensures calls { pass.new.calls ≡ pass.old.calls ++ Called.Halt why.now ∷ [] }
    ensures halted { IsTrue (is_some pass.new.stop) }
{
    table.halt(rt, pass, *why);
    call_noted(table, pass, Call::Halt(*why));
}

impl<'a, C: Turns, R: Wait> Stepper for SeatStepper<'a, C, R> {
    ghost use Rattle.std.specs.Prelude.{Some};
    ghost use Rattle.seat_table.specs.Passes.{origin_of};

    type Origin = (Badge<()>, Path);

    ghost calls = { λ s. Some s.calls };

    ghost origin = { λ s. origin_of s.table s.path };

    fn step(&mut self, path: Path) -> Next {
        step_noted(self.table, self.rt, &mut self.pass, path)
    }

    fn halt(&mut self, why: Halt) {
        halt_noted(self.table, self.rt, &mut self.pass, &why);
    }
}

impl<'a, C: Turns, R: Wait, P: Drain> Drainable<P> for SeatStepper<'a, C, R> {
    fn drained(&mut self, path: Path, proof: P) {
        drained_noted(self.table, self.rt, &mut self.pass, path, proof);
    }
}

impl<'a, C: Turns, R: Wait> Stepper for HaltStepper<'a, C, R> {
    ghost use Rattle.std.specs.Prelude.{Some};
    ghost use Rattle.seat_table.specs.Passes.{origin_of};

    type Origin = (Badge<()>, Path);

    ghost calls = { λ s. Some s.calls };

    ghost origin = { λ s. origin_of s.table s.path };

    fn step(&mut self, path: Path) -> Next
        ensures calls { self.new.calls ≡ self.old.calls ++ Called.Step path Silent ∷ [] }
        ensures silent { result ≡ Silent }
        ensures same { (self.new.table ≡ self.old.table) × (self.new.path ≡ self.old.path) }
    {
        let answer = Next::Silent;
        call_noted(self.table, &mut self.pass, Call::Step { path, answer });
        Next::Silent
    }

    fn halt(&mut self, why: Halt)
        requires { IsOfTurret why }
        ensures calls { self.new.calls ≡ self.old.calls ++ Called.Halt why ∷ [] }
        ensures same { (self.new.table ≡ self.old.table) × (self.new.path ≡ self.old.path) }
        ensures halted { IsTrue (is_some self.new.stop) }
    {
        halter_noted(self.table, self.rt, &mut self.pass, &why);
    }
}
