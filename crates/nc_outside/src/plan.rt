//! The plan of a shelf, sink or turret in memory: which of its calls are to fail, so that tests
//! meet each fault. For memory_shelf.rt, memory_turret.rt and vec_sink.rt of this crate.
ghost use Rattle.std.specs.Prelude.{◌≡◌, ◌==◌, ◌<◌, ◌≤◌, ◌↔◌, false, IfOk, IsTrue, Contains};
ghost use Rattle.std.specs.List.{list_any};
ghost use Rattle.nc_outside.specs.Plan.{plan_after_call, fails_next, fault_count, fresh_plan};

use nc_number::NoMemory;
use std::alloc::Global;
use std::marker::Model;

/// The numbers of the calls that are to fail, counted from 1, and how many calls have been made. A
/// number that is listed twice counts as two faults.
#[derive(Debug, Drop)]
pub struct Plan {
    /// The numbers of the calls that are to fail.
    failing: Vec<u64>,
    /// How many calls have been made.
    calls: u64,
}

impl Model for Plan {
    ghost use Rattle.nc_outside.specs.Plan.{PlanView};

    ghost Value = { PlanView };

    ghost view = { λ p. record { failing = p.failing.items; calls = p.calls } };
}

impl Plan {
    /// The plan of these calls, of which none has been made.
    pub fn new(alloc: Global, failing: &[u64]) -> Result<Self, NoMemory>
        ensures { IfOk result (λ plan. plan ≡ fresh_plan failing.now) }
    {
        let failing = failing.to_vec(alloc)?;
        Ok(Plan { failing, calls: 0 })
    }

    /// How many of the planned faults have come.
    pub fn faults(&self) -> u64
        ensures { result ≡ fault_count self.now }
    {
        let calls = self.calls;
        self.failing
            .iter()
            .filter(|number| 0 < **number && **number <= calls)
            .count() as u64
    }

    /// Counts a call, and says whether it is to fail.
    pub fn call(&mut self) -> bool
        ensures fails { result ≡ fails_next self.old }
        ensures new { self.new ≡ plan_after_call self.old }
        ensures rose { IsTrue result → fault_count self.old < fault_count self.new }
        ensures kept { result ≡ false → fault_count self.new ≡ fault_count self.old }
        ensures later { fault_count self.old ≤ fault_count self.new }
    {
        match self.calls.checked_add(1) {
            None => false,
            Some(number) => {
                self.calls = number;
                is_planned(&self.failing, number)
            }
        }
    }
}

/// Whether the call of this number is to fail.
fn is_planned(failing: &[u64], number: u64) -> bool
    ensures any { result ≡ list_any (λ planned. planned == number) failing.now }
    ensures contains { IsTrue result ↔ Contains failing.now number }
{
    failing.contains(&number)
}
