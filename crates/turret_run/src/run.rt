//! A run of an opened table with its turrets: they are placed, both paths run in threads, the turns
//! that are left are given, and the table and the turrets come back.
ghost use Rattle.std.specs.Prelude.{◌≡◌, length, Some, None, Ok, Err};
ghost use Rattle.run_table.specs.Draining.{none_resting};
ghost use Rattle.run_table.specs.Running.{MayRun, IsNoneOrAlarm};
ghost use Rattle.two_path.specs.Ending.{end_of};
ghost use Rattle.nc_number.specs.declared.both.Both.{Both};
ghost use Rattle.nc_number.specs.Both.{both_of};
ghost use Rattle.nc_outside.specs.declared.reason.Reason.TheVariants.{TurretFault};
ghost use Rattle.nc_outside.specs.Received.{TurretState};
ghost use Rattle.turret_run.specs.Runs.{none_missed, RunsWith};
ghost use Rattle.turret_run.specs.Rests.{ArePlaced};

use crate::crossing::held_crosses;
use crate::ending::TurretRun;
use crate::placing::{make_ready, place_both};
use crate::rest::{give_rest, tell_ends};
use disk_model::Disk;
use drive_line::Driven;
use lane_pair::{Crew, Ran, Unrun, gather, run_pair};
use nc_number::{Both, NoMemory, Path};
use nc_outside::{Reason, Turret};
use run_table::{Held, Opening, Table, a_table_opens_itself, a_taken_table_ended_so};
use std::alloc::Global;
use std::marker::Brand;
use std::sync::Wait;
use std::thread;
use std::thread::{Scope, Threads};

/// Runs both paths of the opened table by the crew, and then gives the turns that are left. Both
/// turrets must be placed; at the end both are told to rest. Gives back the table and the turrets,
/// and why the run ended, or that it did not begin since memory ran out.
fn run_crew<O, R, D, T>(
    rt: &R,
    alloc: Global,
    crew: Crew<R, Held<D, O>, T>,
    table: Table<D>,
    turrets: Both<T>,
) -> TurretRun<D, T>
where
    O: Opening<D>,
    R: Threads + Wait,
    D: Disk + Drop,
    T: Turret,
    requires opening { O.opened ≡ Some table }
    requires halt { IsNoneOrAlarm table.halt }
    requires all { table.recording.flushed ≡ length table.recording.history }
    requires rests { table.resting ≡ none_resting }
    ensures run { (start : Both TurretState) → ArePlaced table.machine start (both_of T.state turrets)
        → RunsWith D.state table.budget table result.table start (both_of T.state result.turrets)
        result.missed result.end }
{
    a_table_opens_itself::<D>();
    a_taken_table_ended_so::<D>();
    match run_pair(rt, alloc, crew, Held::<D, O>::new(table), turrets) {
        Ok(ran) => {
            let Ran {
                mut table,
                mut turrets,
                whys,
            } = ran;
            let end = give_rest(rt, &mut table, &mut turrets, &whys);
            let end = tell_ends(&mut turrets, &whys, end);
            let missed = who_missed(&turrets);
            TurretRun {
                table: table.into_table(),
                turrets: let_go(turrets),
                end: Ok(end),
                missed,
            }
        }
        Err(unrun) => {
            let Unrun { table, turrets } = unrun;
            unbegun(table.into_table(), turrets)
        }
    }
}

/// How many moves each turret did not get of those that were due to it.
fn who_missed<T: Turret>(turrets: &Both<Driven<T>>) -> Both<u64>
    ensures { result ≡ both_of (λ d. d.missed) turrets.now }
{
    Both {
        one: turrets.one.missed(),
        two: turrets.two.missed(),
    }
}

/// The turrets themselves, which their drives give back.
fn let_go<T: Turret>(turrets: Both<Driven<T>>) -> Both<T>
    ensures { both_of T.state result ≡ both_of (λ d. d.state) turrets }
{
    let Both { one, two } = turrets;
    Both {
        one: one.into_turret(),
        two: two.into_turret(),
    }
}

/// A run that has not begun, since memory or threads ran out.
fn unbegun<D: Disk, T: Turret>(table: Table<D>, turrets: Both<T>) -> TurretRun<D, T>
    ensures { result ≡ record { table = table; turrets = turrets; end = Err (record {}); missed = none_missed } }
{
    TurretRun {
        table,
        turrets,
        end: Err(NoMemory),
        missed: Both { one: 0, two: 0 },
    }
}

/// A run that has not begun, since the turret of this path failed at its place.
fn unplaced<D: Disk, T: Turret>(table: Table<D>, turrets: Both<T>, path: Path) -> TurretRun<D, T>
    ensures { result ≡ record { table = table; turrets = turrets; end = Ok (TurretFault path); missed = none_missed } }
{
    TurretRun {
        table,
        turrets,
        end: Ok(Reason::TurretFault(path)),
        missed: Both { one: 0, two: 0 },
    }
}

/// Asks for the threads of the run of the opened table, places both turrets, and runs both paths.
/// If a thread is refused nothing is done. If a turret fails at its place the threads are sent
/// home.
fn run_opened<'s, E, O, R, D, T>(
    rt: &'s R,
    alloc: Global,
    scope: &Scope<'s, E>,
    table: Table<D>,
    turrets: Both<T>,
) -> TurretRun<D, T>
where
    O: Opening<D> + Send + Sync + 's,
    R: Threads + Wait + Sync + 's,
    D: Disk + Drop + Send + 's,
    T: Turret + Send + 's,
    requires opening { O.opened ≡ Some table }
    requires halt { IsNoneOrAlarm table.halt }
    requires all { table.recording.flushed ≡ length table.recording.history }
    requires rests { table.resting ≡ none_resting }
    ensures run { RunsWith D.state table.budget table result.table (both_of T.state turrets)
        (both_of T.state result.turrets) result.missed result.end }
{
    a_table_opens_itself::<D>();
    held_crosses::<D, O>();
    let Ok(crew) = gather::<E, R, Held<D, O>, T>(rt, alloc, scope) else {
        return unbegun(table, turrets);
    };
    let mut turrets = turrets;
    if let Err(path) = place_both(&table, &mut turrets) {
        crew.dismiss(rt);
        return unplaced(table, turrets, path);
    }
    run_crew::<O, R, D, T>(rt, alloc, crew, table, turrets)
}

/// Runs the opened table in a scope of threads.
fn run_scoped<O, R, D, T>(
    rt: &R,
    alloc: Global,
    table: Table<D>,
    turrets: Both<T>,
) -> TurretRun<D, T>
where
    O: Opening<D> + Send + Sync,
    R: Threads + Wait + Sync,
    D: Disk + Drop + Send,
    T: Turret + Send,
    requires opening { O.opened ≡ Some table }
    requires halt { IsNoneOrAlarm table.halt }
    requires all { table.recording.flushed ≡ length table.recording.history }
    requires rests { table.resting ≡ none_resting }
    ensures run { RunsWith D.state table.budget table result.table (both_of T.state turrets)
        (both_of T.state result.turrets) result.missed result.end }
{
    thread::scope(
        thread::scope_env(),
        rt,
        move |scope| -> TurretRun<D, T>
            requires opening { O.opened ≡ Some table }
            requires halt { IsNoneOrAlarm table.halt }
            requires all { table.recording.flushed ≡ length table.recording.history }
            requires rests { table.resting ≡ none_resting }
            ensures run { RunsWith D.state table.budget table result.table (both_of T.state turrets)
                (both_of T.state result.turrets) result.missed result.end }
        { run_opened::<_, O, R, D, T>(rt, alloc, scope, table, turrets) },
    )
}

/// Asks for a thread for each worker and drive but the caller's own. Then it places both turrets
/// where their paths stand, that of path 1 first, and waits until each stands still there. Then it
/// runs both paths at once, until the run ends or has made `limit` records.
///
/// Memory may run out only before the first step. The system is asked for threads once: if one is
/// refused nothing is done.
pub fn run_with_turrets<R, D, T>(
    rt: &R,
    alloc: Global,
    table: Table<D>,
    limit: u32,
    turrets: Both<T>,
) -> TurretRun<D, T>
where
    R: Threads + Wait + Sync,
    D: Disk + Drop + Send,
    T: Turret + Send,
    requires may { MayRun table }
    requires unended { end_of table.machine ≡ None }
    ensures run { RunsWith D.state limit table result.table (both_of T.state turrets) (both_of T.state result.turrets)
        result.missed result.end }
{
    let mut table = table;
    let Ok(()) = make_ready(&mut table, limit) else {
        return unbegun(table, turrets);
    };
    run_scoped::<Brand, R, D, T>(rt, alloc, table, turrets)
}
