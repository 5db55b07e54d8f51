//! The command `resume`: a run that was stopped goes on. What it answers is in specs/Ran.antt
//! (`IsResumed`). How the run goes on is in going.rt.
//! For control.rt of this crate.
ghost use Rattle.lathe_calls.specs.Answers.{Ends};
ghost use Rattle.lathe_calls.specs.Reported.{report_of};
ghost use Rattle.lathe_top.specs.Going.{IsReport, standing_run};
ghost use Rattle.lathe_top.specs.Held.{lathe_of, lathe_left};
ghost use Rattle.lathe_top.specs.Lathe.{lathe_with};
ghost use Rattle.lathe_top.specs.Ran.{IsResumed};
ghost use Rattle.nc_restart.specs.Recovered.{IsRecovered};
ghost use Rattle.nc_number.specs.Both.{both_of};

use crate::going::go_on;
use crate::held::{Ended, Lathe};
use crate::telling::{Request, Telling, tell_end};
use disk_model::Disk;
use lathe_looks::{is_over, reason_of, tell_unfound};
use nc_number::Both;
use nc_outside::{Sink, Turret};
use nc_restart::{Recovered, no_history_is_stuck, recover};
use run_journal::a_held_journal_leaves_its_records;
use run_table::Table;
use std::alloc::Global;
use std::sync::Wait;
use std::thread::Threads;

/// Goes on with the run whose journal the disk has, for at most `limit` records more, and writes
/// the report of all its records, or why there is none. A run that is over is only reported.
pub(crate) fn resume<R, D, T, K>(
    rt: &R,
    alloc: Global,
    limit: u32,
    lathe: Lathe<D, T>,
    out: &mut K,
) -> Ended<D, T>
where
    R: Threads + Wait + Sync,
    D: Disk + Drop + Send,
    T: Turret + Send,
    K: Sink,
    ensures { Ends (IsResumed D.state limit (lathe_of D.state T.state lathe) (lathe_left D.state T.state result))
        (K.state out.old) (K.state out.new) result.status }
{
    no_history_is_stuck();
    let Lathe { disk, turrets } = lathe;
    match recover(alloc, disk) {
        Ok(found) => resume_found(rt, alloc, found, limit, turrets, out),
        Err((disk, fault)) => Ended::at_rest(tell_unfound(fault, out), Lathe { disk, turrets }),
    }
}

/// Goes on with a run that was found, for at most `limit` records more. A run that is over is only
/// reported, and no turret is called.
fn resume_found<R, D, T, K>(
    rt: &R,
    alloc: Global,
    found: Recovered<D>,
    limit: u32,
    turrets: Both<T>,
    out: &mut K,
) -> Ended<D, T>
where
    R: Threads + Wait + Sync,
    D: Disk + Drop + Send,
    T: Turret + Send,
    K: Sink,
    requires { IsRecovered D.state found.header found.verified found.machine.machine found.entries.items
        found.journal }
    ensures { Ends (IsReport limit report_of (standing_run found.header found.verified found.entries.items)
        (lathe_with (D.state found.journal.file.disk) (both_of T.state turrets)) (lathe_left D.state T.state result))
        (K.state out.old) (K.state out.new) result.status }
{
    a_held_journal_leaves_its_records::<D>();
    let Recovered {
        header: _,
        verified,
        machine,
        entries,
        journal,
    } = found;
    let telling = Telling::Report;
    if is_over(&machine) {
        let reason = reason_of(&machine);
        let status = tell_end(alloc, telling, &verified, &entries, reason, out);
        let disk = journal.into_disk();
        return Ended::at_rest(status, Lathe { disk, turrets });
    }
    go_on(
        rt,
        alloc,
        Table::from_recovered(verified, machine, entries, journal),
        Request { limit, telling },
        turrets,
        out,
    )
}
