//! A turret in memory, for tests.
ghost use Rattle.std.specs.Prelude.{◌≡◌, [], ◌∷◌, IfOk, OnOk, OnErr, is_err, IsErr, IsTrue};
ghost use Rattle.nc_outside.specs.Faults.{CountsFault};
ghost use Rattle.nc_outside.specs.Kept.{after_call, fresh_turret, plan_for, refuses_next, turret_of};
ghost use Rattle.nc_outside.specs.Kept.{when_counted, when_planned};
ghost use Rattle.nc_outside.specs.Plan.{fails_next};
ghost use Rattle.nc_outside.specs.Received.{Receives};

use crate::plan::Plan;
use crate::{Failed, Got, LinedMove, Rest, Turret};
use nc_number::{NoMemory, Point};
use std::alloc::Global;
use std::marker::Model;

/// What a turret got, in memory, with a fixed room for it, and the numbers of the calls that are to
/// fail. A call that finds no room fails too. Its calls take no memory.
#[derive(Drop)]
pub struct MemoryTurret {
    /// What the turret got, in order.
    got: Vec<Got>,
    /// How many places, moves and rests it has room for.
    room: usize,
    /// How many calls it has had.
    calls: u64,
    /// Which calls of `place` and `hand` are to fail.
    plan: Plan,
    /// Which calls of `settle` are to fail.
    settling: Plan,
    /// How many calls, besides those that a plan failed, found no room.
    past: u64,
}

impl Model for MemoryTurret {
    ghost use Rattle.std.specs.Prelude.{◌≤◌, vec_len, vec_capacity};
    ghost use Rattle.nc_outside.specs.Kept.{KeptMoves};

    ghost Value = { KeptMoves };

    ghost view = { λ t. record {
      got = t.got.items;
      room = t.room;
      calls = t.calls;
      plan = t.plan;
      settling = t.settling;
      past = t.past;
    } };

    ghost invariant = { λ t. (vec_len t.got ≤ t.room) × (t.room ≤ vec_capacity t.got) };
}

impl MemoryTurret {
    /// A turret that got nothing yet, with room for so many places, moves and rests, of which the
    /// `failing` calls of `place` and `hand` together are to fail, counted from 1. It settles each
    /// time that it finds room.
    pub fn new(alloc: Global, room: usize, failing: &[u64]) -> Result<Self, NoMemory>
        ensures { IfOk result (λ turret. turret ≡ fresh_turret room failing.now []) }
    {
        MemoryTurret::with_plans(alloc, room, failing, &[])
    }

    /// A turret that got nothing yet, with room for so many places, moves and rests. The `failing`
    /// calls of `place` and `hand` together are to fail, and the `unsettled` calls of `settle`, each
    /// counted from 1.
    pub fn with_plans(
        alloc: Global,
        room: usize,
        failing: &[u64],
        unsettled: &[u64],
    ) -> Result<Self, NoMemory>
        ensures { IfOk result (λ turret. turret ≡ fresh_turret room failing.now unsettled.now) }
    {
        let got = Vec::with_capacity(alloc, room)?;
        let plan = Plan::new(alloc, failing)?;
        let settling = Plan::new(alloc, unsettled)?;
        Ok(MemoryTurret {
            got,
            room,
            calls: 0,
            plan,
            settling,
            past: 0,
        })
    }

    /// What it got, in order.
    pub fn got(&self) -> &[Got]
        ensures { result.now ≡ self.now.got }
    {
        self.got.as_slice()
    }

    /// Counts the call that is to give the turret this, and says whether it is planned to fail.
    fn is_planned(&mut self, what: &Got) -> bool
        ensures fails { result ≡ fails_next (plan_for what.now self.old) }
        ensures new { self.new ≡ when_planned what.now self.old }
        ensures fault { CountsFault (turret_of self.old).faults (turret_of self.new).faults (IsTrue result) }
    {
        self.calls = self.calls.saturating_add(1);
        match what {
            Got::Placed(_) => self.plan.call(),
            Got::Moved(_) => self.plan.call(),
            Got::Rested(_) => self.settling.call(),
        }
    }

    /// Counts the call that is to give the turret this, and says whether it fails: its number is
    /// planned, or there is no room.
    fn refuses(&mut self, what: &Got) -> bool
        ensures fails { result ≡ refuses_next what.now self.old }
        ensures new { self.new ≡ when_counted what.now self.old }
        ensures fault { CountsFault (turret_of self.old).faults (turret_of self.new).faults (IsTrue result) }
    {
        if self.is_planned(what) {
            return true;
        }
        if self.got.len() < self.room {
            return false;
        }
        self.past = self.past.saturating_add(1);
        true
    }

    /// One call: keeps what the turret got, unless the call fails.
    #[tactic(auto, unfolding(crate::specs::Received::counted_on))]
    fn receive(&mut self, what: Got) -> Result<(), Failed>
        ensures fails { is_err result ≡ refuses_next what self.old }
        ensures new { self.new ≡ after_call what self.old }
        ensures ok { OnOk result (Receives (turret_of self.old) (turret_of self.new) (what ∷ []) 1) }
        ensures err { OnErr result (Receives (turret_of self.old) (turret_of self.new) [] 1) }
        ensures fault { CountsFault (turret_of self.old).faults (turret_of self.new).faults (IsErr result) }
    {
        if self.refuses(&what) {
            return Err(Failed);
        }
        // Each kind by its name: what is kept across a call must have its parts' types in sight.
        match what {
            Got::Placed(at) => self.got.push_reserved(Got::Placed(at)),
            Got::Moved(what) => self.got.push_reserved(Got::Moved(what)),
            Got::Rested(at) => self.got.push_reserved(Got::Rested(at)),
        }
        Ok(())
    }
}

impl Turret for MemoryTurret {
    ghost state = { turret_of };

    /// How many calls have failed, up to the last value of a u64.
    fn faults(&self) -> u64 {
        self.plan
            .faults()
            .saturating_add(self.past)
            .saturating_add(self.settling.faults())
    }

    /// Keeps the place. It fails as planned, or without room.
    fn place(&mut self, at: Point) -> Result<(), Failed>
        ensures fails { is_err result ≡ refuses_next (Got.Placed at) self.old }
        ensures new { self.new ≡ after_call (Got.Placed at) self.old }
        ensures ok { OnOk result (Receives (turret_of self.old) (turret_of self.new) (Got.Placed at ∷ []) 1) }
        ensures err { OnErr result (Receives (turret_of self.old) (turret_of self.new) [] 1) }
        ensures fault { CountsFault (turret_of self.old).faults (turret_of self.new).faults (IsErr result) }
    {
        self.receive(Got::Placed(at))
    }

    /// Keeps the move. It fails as planned, or without room.
    fn hand(&mut self, what: &LinedMove) -> Result<(), Failed>
        ensures fails { is_err result ≡ refuses_next (Got.Moved what.now) self.old }
        ensures new { self.new ≡ after_call (Got.Moved what.now) self.old }
        ensures ok { OnOk result (Receives (turret_of self.old) (turret_of self.new) (Got.Moved what.now ∷ []) 1) }
        ensures err { OnErr result (Receives (turret_of self.old) (turret_of self.new) [] 1) }
        ensures fault { CountsFault (turret_of self.old).faults (turret_of self.new).faults (IsErr result) }
    {
        self.receive(Got::Moved(*what))
    }

    /// Keeps the rest. It fails as the second plan says, or without room.
    fn settle(&mut self, at: Rest) -> Result<(), Failed>
        ensures fails { is_err result ≡ refuses_next (Got.Rested at) self.old }
        ensures new { self.new ≡ after_call (Got.Rested at) self.old }
        ensures ok { OnOk result (Receives (turret_of self.old) (turret_of self.new) (Got.Rested at ∷ []) 1) }
        ensures err { OnErr result (Receives (turret_of self.old) (turret_of self.new) [] 1) }
        ensures fault { CountsFault (turret_of self.old).faults (turret_of self.new).faults (IsErr result) }
    {
        self.receive(Got::Rested(at))
    }
}
