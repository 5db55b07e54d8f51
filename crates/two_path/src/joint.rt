//! What both paths have in common: the writes to shared variables, the number of records, and the
//! alarm that stopped both.
//! For this crate alone: again.rt, editing.rt, machine.rt and turning.rt use it.
ghost use Rattle.std.specs.Prelude.{◌≡◌, ◌≤◌, ◌<◌, ◌+◌, ◌↔◌, IsTrue, [], Some, None, IfOk, OnOk, IfSome};
ghost use Rattle.nc_number.specs.declared.limits.TheConstants.{MOST_RECORDS};
ghost use Rattle.common_vars.specs.Writes.{IsShared, value_after};
ghost use Rattle.path_state.specs.StatementSteps.{write_seen};
ghost use Rattle.two_path.specs.Joined.{IsLasting};
ghost use Rattle.two_path.specs.Turns.{with_write};

use common_vars::Shared;
use nc_moves::Alarm;
use nc_number::{NoMemory, Var};
use std::alloc::Global;
use std::marker::Model;

/// The shared variables with all their writes, the number of records, and the alarm that stopped
/// both paths.
#[derive(Debug, Drop)]
pub(crate) struct Joint {
    /// The writes to shared variables.
    shared: Shared,
    /// How many records there are.
    count: u32,
    /// The alarm that stopped both paths.
    alarm: Option<Alarm>,
}

impl Model for Joint {
    ghost use Rattle.std.specs.Prelude.{◌≤◌, All};
    ghost use Rattle.two_path.specs.Joined.{JointView};

    ghost Value = { JointView };

    ghost view = { λ j. record { shared = j.shared; count = j.count; alarm = j.alarm } };

    ghost invariant = { λ j. All (λ w. w.stamp ≤ j.count) j.shared.writes };
}

impl Joint {
    /// Nothing recorded and nothing written. The error is that memory ran out.
    pub(crate) fn new(alloc: Global, shared100: u32, shared500: u32) -> Result<Joint, NoMemory>
        requires lower { shared100 ≤ 100 }
        requires upper { shared500 ≤ 500 }
        ensures hundreds { IfOk result (λ joint. joint.shared.shared100 ≡ shared100) }
        ensures upper { IfOk result (λ joint. joint.shared.shared500 ≡ shared500) }
        ensures unwritten { IfOk result (λ joint. joint.shared.writes ≡ []) }
        ensures count { IfOk result (λ joint. joint.count ≡ 0) }
        ensures alarm { IfOk result (λ joint. joint.alarm ≡ None) }
    {
        let shared = Shared::new(alloc, shared100, shared500)?;
        Ok(Joint {
            shared,
            count: 0,
            alarm: None,
        })
    }

    /// Makes room for `n` more records. The error is that memory ran out.
    pub(crate) fn reserve(&mut self, n: usize) -> Result<(), NoMemory>
        ensures writes { self.new.shared.writes ≡ self.old.shared.writes }
        ensures hundreds { self.new.shared.shared100 ≡ self.old.shared.shared100 }
        ensures upper { self.new.shared.shared500 ≡ self.old.shared.shared500 }
        ensures rest { self.new ≡ record self.old { shared = self.new.shared } }
        ensures room { OnOk result (n ≤ self.new.shared.room) }
        ensures no_less { self.old.shared.room ≤ self.new.shared.room }
    {
        self.shared.reserve(n)
    }

    /// How many records there are.
    pub(crate) fn count(&self) -> u32
        ensures { result ≡ self.now.count }
    {
        self.count
    }

    /// The alarm that stopped both paths.
    pub(crate) fn alarm(&self) -> Option<Alarm>
        ensures { result ≡ self.now.alarm }
    {
        self.alarm
    }

    /// Whether both paths share `#v`.
    pub(crate) fn holds(&self, v: u32) -> bool
        ensures { IsTrue result ↔ IsShared self.now.shared.shared100 self.now.shared.shared500 v }
    {
        self.shared.holds(v)
    }

    /// What `#v` held after so many records.
    pub(crate) fn at(&self, stamp: u32, v: u32) -> Var
        requires { IsShared self.now.shared.shared100 self.now.shared.shared500 v }
        ensures { result ≡ value_after stamp v self.now.shared.writes }
    {
        self.shared.at(stamp, v)
    }

    /// Counts one record more, and keeps what it wrote to a shared variable, if it wrote to one.
    pub(crate) fn add(&mut self, write: Option<(u32, Var)>)
        requires room { 0 < self.old.shared.room }
        requires few { self.old.count ≤ MOST_RECORDS }
        requires shared { IfSome write (λ w. IsShared self.old.shared.shared100 self.old.shared.shared500 w.0) }
        ensures writes { self.new.shared.writes
            ≡ with_write (self.old.count + 1) (write_seen write) self.old.shared.writes }
        ensures count { self.new.count ≡ self.old.count + 1 }
        ensures alarm { self.new.alarm ≡ self.old.alarm }
        ensures lasting { IsLasting self.old self.new }
    {
        self.count += 1;
        if let Some((v, to)) = write {
            self.shared.write(self.count, v, to);
        }
    }

    /// Counts one record more, which is this alarm.
    pub(crate) fn raise(&mut self, alarm: Alarm)
        requires few { self.old.count ≤ MOST_RECORDS }
        ensures writes { self.new.shared ≡ self.old.shared }
        ensures count { self.new.count ≡ self.old.count + 1 }
        ensures alarm { self.new.alarm ≡ Some alarm }
    {
        self.count += 1;
        self.alarm = Some(alarm);
    }
}
