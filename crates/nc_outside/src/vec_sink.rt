//! A sink in memory, for tests.
ghost use Rattle.std.specs.Prelude.{◌≡◌, [], ◌++◌, is_ok, if◌then◌else◌, IfOk, IsErrOf};
ghost use Rattle.nc_outside.specs.Kept.{sink_of};
ghost use Rattle.nc_outside.specs.Plan.{FailsAsPlanned, plan_after_call, fresh_plan};

use crate::plan::Plan;
use crate::{PutFault, Sink};
use nc_number::NoMemory;
use std::alloc::Global;
use std::marker::Model;

/// What was written, in memory, and the numbers of the calls that are to fail.
#[derive(Drop)]
pub struct VecSink {
    /// What was written.
    bytes: Vec<u8>,
    /// Which calls are to fail.
    plan: Plan,
}

impl Model for VecSink {
    ghost use Rattle.nc_outside.specs.Kept.{KeptBytes};

    ghost Value = { KeptBytes };

    ghost view = { λ s. record { bytes = s.bytes.items; plan = s.plan } };
}

impl VecSink {
    /// A sink without bytes, of which the `failing` calls of `put` are to fail, counted from 1.
    pub fn new(alloc: Global, failing: &[u64]) -> Result<Self, NoMemory>
        ensures { IfOk result (λ sink. sink ≡ record { bytes = []; plan = fresh_plan failing.now }) }
    {
        let plan = Plan::new(alloc, failing)?;
        Ok(VecSink {
            bytes: Vec::new(alloc),
            plan,
        })
    }

    /// What was written.
    pub fn bytes(&self) -> &[u8]
        ensures { result.now ≡ self.now.bytes }
    {
        self.bytes.as_slice()
    }
}

/// A call that fails by its number writes nothing.
impl Sink for VecSink {
    ghost state = { sink_of };

    /// How many of the planned faults have come.
    fn faults(&self) -> u64 {
        self.plan.faults()
    }

    /// Adds the piece, or fails as planned. `NoMemory` if there is no memory for it.
    fn put(&mut self, piece: &[u8]) -> Result<(), PutFault>
        ensures plan { FailsAsPlanned self.old.plan self.new.plan (IsErrOf result PutFault.Failed) }
        ensures new { self.new ≡ record {
          bytes = if is_ok result then self.old.bytes ++ piece.now else self.old.bytes;
          plan = plan_after_call self.old.plan;
        } }
    {
        if self.plan.call() {
            return Err(PutFault::Failed);
        }
        self.bytes.extend_from_slice(piece)?;
        Ok(())
    }
}
