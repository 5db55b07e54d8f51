//! A turret as its drive has it: it is handed moves, told to settle, and called no more once it has
//! failed.
ghost use Rattle.std.specs.Prelude.{◌≡◌, ◌⊎◌, ◌+◌, ◌++◌, ◌∷◌, [], true, false, List};
ghost use Rattle.nc_outside.specs.declared.got.Got.{Got};
ghost use Rattle.nc_outside.specs.declared.got.Got.TheVariants.{Moved, Rested};
ghost use Rattle.nc_outside.specs.Calls.{IsCalled};
ghost use Rattle.nc_outside.specs.declared.halt.Halt.TheVariants.{Turret as OfTurret};
ghost use Rattle.nc_outside.specs.declared.stepper.Call.TheVariants as Call;
ghost use Rattle.nc_outside.specs.Received.{TurretState};
ghost use Rattle.drive_line.specs.declared.phase.Phase.TheVariants.{Still, Failed, Halted};
ghost use Rattle.drive_line.specs.Driving.{fresh_drive, has_failed, HasMoved, Serves};

use crate::Phase;
use crate::counting::next_count;
use nc_number::Path;
use nc_outside::{Halt, LinedMove, Rest, Stepper, Turret};
use std::marker::Model;
use std::sync::Wait;

/// A turret, how many moves it took and how many it missed since it failed, and how it stands.
/// Clauses see these, with the turret's state. A turret that failed is called no more.
#[derive(Drop)]
pub struct Driven<T: Turret> {
    /// The turret itself.
    turret: T,
    /// How many moves the turret took.
    taken: u64,
    /// How many moves the turret missed since it failed.
    missed: u64,
    /// How the turret stands.
    phase: Phase,
}

impl<T: Turret> Model for Driven<T> {
    ghost use Rattle.drive_line.specs.Driving.{DrivenState};

    ghost Value = { DrivenState };

    ghost view = { λ d. record {
      state = T.state d.turret;
      taken = d.taken;
      missed = d.missed;
      phase = d.phase;
    } };
}

impl<T: Turret> Driven<T> {
    /// A turret that was handed nothing yet. It may be on its way still to where it was placed.
    pub fn new(turret: T) -> Driven<T>
        ensures { result ≡ fresh_drive (T.state turret) }
    {
        Driven {
            turret,
            taken: 0,
            missed: 0,
            phase: Phase::Moving,
        }
    }

    /// Gives the turret itself back.
    pub fn into_turret(self) -> T
        ensures { T.state result ≡ self.state }
    {
        self.turret
    }

    /// How many moves the turret missed since it failed.
    pub fn missed(&self) -> u64
        ensures { result ≡ self.now.missed }
    {
        self.missed
    }

    /// How the turret stands.
    pub fn phase(&self) -> Phase
        ensures { result ≡ self.now.phase }
    {
        self.phase
    }

    /// Whether the turret failed.
    pub fn has_failed(&self) -> bool
        ensures { result ≡ has_failed self.now.phase }
    {
        match self.phase {
            Phase::Moving => false,
            Phase::Still => false,
            Phase::Failed => true,
            Phase::Halted => true,
        }
    }

    /// Hands a move to the turret in one call. If it failed before, it is not called, and misses
    /// the move; a move at which it fails is missed too. Past 2^64 - 1 moves the call does not
    /// return.
    pub fn hand<R: Wait>(&mut self, rt: &R, what: &LinedMove)
        ensures serves { (told : List Got) (start : TurretState)
            → Serves told start self.old → Serves (told ++ Moved what.now ∷ []) start self.new }
        ensures handed { has_failed self.old.phase ≡ false → HasMoved self.new.phase }
        ensures missed { has_failed self.old.phase ≡ true
            → self.new ≡ record self.old { missed = self.old.missed + 1 } }
    {
        if self.has_failed() {
            self.missed = next_count(rt, self.missed);
            return;
        }
        match self.turret.hand(what) {
            Ok(()) => {
                self.taken = next_count(rt, self.taken);
                self.phase = Phase::Moving;
            }
            Err(_) => {
                self.missed = next_count(rt, self.missed);
                self.phase = Phase::Failed;
            }
        }
    }

    /// Tells the turret where its path rests, and waits until it stands still. If it failed before,
    /// nothing is done.
    pub fn settle(&mut self, at: Rest)
        ensures serves { (told : List Got) (start : TurretState)
            → Serves told start self.old → Serves (told ++ Rested at ∷ []) start self.new }
        ensures settled { has_failed self.old.phase ≡ false → (self.new.phase ≡ Still) ⊎ (self.new.phase ≡ Failed) }
        ensures stays { has_failed self.old.phase ≡ true → self.new ≡ self.old }
    {
        if self.has_failed() {
            return;
        }
        match self.turret.settle(at) {
            Ok(()) => self.phase = Phase::Still,
            Err(_) => self.phase = Phase::Failed,
        }
    }

    /// Halts the run, since the turret failed.
    pub fn halt_by<H: Stepper>(&mut self, halter: &mut H, path: Path)
        requires { self.old.phase ≡ Failed }
        ensures halted { self.new ≡ record self.old { phase = Halted } }
        ensures calls { IsCalled (H.calls halter.old) (H.calls halter.new) (Call.Halt (OfTurret path) ∷ []) }
        ensures origin { H.origin halter.new ≡ H.origin halter.old }
    {
        halter.halt(Halt::Turret(path));
        self.phase = Phase::Halted;
    }
}
