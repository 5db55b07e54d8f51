//! How a run goes on, with the turrets of both paths, and ends with its report or summary. `run`,
//! `make` and `resume` end here.
//! For beginning.rt and resuming.rt of this crate.
ghost use Rattle.std.specs.Prelude.{◌≡◌, ◌≤◌, false, length};
ghost use Rattle.run_table.specs.Running.{MayRun};
ghost use Rattle.nc_number.specs.Both.{both_of};
ghost use Rattle.two_path.specs.Histories.{IsLegal};
ghost use Rattle.nc_restart.specs.Pair.{tapes_in, opening_of, machine_behind};
ghost use Rattle.lathe_calls.specs.Answers.{Ends, IsJust};
ghost use Rattle.lathe_looks.specs.Standing.{is_over};
ghost use Rattle.lathe_top.specs.Going.{IsReportOn, told_of};
ghost use Rattle.lathe_top.specs.Held.{lathe_left};
ghost use Rattle.lathe_top.specs.Lathe.{lathe_with};
ghost use Rattle.lathe_top.specs.Texts.{text_by};

use crate::held::{Ended, Lathe};
use crate::telling::{Request, Telling, tell_end};
use disk_model::Disk;
use lathe_calls::Status;
use nc_number::{Both, NoMemory};
use nc_outside::{Reason, Sink, Turret};
use nc_verify::Verified;
use run_journal::a_held_journal_is_small;
use run_records::EntryList;
use run_table::Table;
use std::alloc::Global;
use std::sync::Wait;
use std::thread::Threads;
use turret_run::{TurretRun, run_with_turrets};

/// Goes on with the run of a table, with both turrets, and writes what was asked for of it.
pub(crate) fn go_on<R, D, T, K>(
    rt: &R,
    alloc: Global,
    table: Table<D>,
    asked: Request,
    turrets: Both<T>,
    out: &mut K,
) -> Ended<D, T>
where
    R: Threads + Wait + Sync,
    D: Disk + Drop + Send,
    T: Turret + Send,
    K: Sink,
    requires may { MayRun table }
    requires behind { table.machine ≡ machine_behind table.verified table.recording.history }
    requires unended { is_over table.machine ≡ false }
    ensures { IsReportOn D.state asked.limit (text_by asked.telling) table
        (lathe_with (D.state table.recording.log.file.disk) (both_of T.state turrets))
        (lathe_left D.state T.state result) (K.state out.old) (K.state out.new) result.status }
{
    a_held_journal_is_small::<D>();
    let TurretRun {
        table,
        turrets,
        end,
        missed,
    } = run_with_turrets(rt, alloc, table, asked.limit, turrets);
    let parts = table.into_parts();
    let status = tell_run(
        alloc,
        asked.telling,
        &parts.verified,
        &parts.entries,
        end,
        out,
    );
    Ended {
        status,
        lathe: Lathe {
            disk: parts.disk,
            turrets,
        },
        missed,
    }
}

/// Writes what is told of a history whose run ended so, and gives the status. If the run did not
/// begin, since memory ran out or a thread was refused, nothing is written and the status is 12.
fn tell_run<K: Sink>(
    alloc: Global,
    telling: Telling,
    verified: &Verified,
    entries: &EntryList,
    end: Result<Reason, NoMemory>,
    out: &mut K,
) -> u8
    requires legal { IsLegal (tapes_in verified.now) (opening_of verified.now) entries.now.items }
    requires few { length entries.now.items ≤ verified.now.settings.records }
    ensures { Ends (IsJust (told_of (text_by telling) verified.now entries.now.items end))
        (K.state out.old) (K.state out.new) result }
{
    match end {
        Ok(reason) => tell_end(alloc, telling, verified, entries, reason, out),
        Err(_) => Status::NoMemory as u8,
    }
}
