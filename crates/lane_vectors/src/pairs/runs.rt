//! Tests of `run_pair` (lane_pair) and `give_turn` (turret_run): runs of both paths in their threads, and
//! single turns of one path.
ghost use Rattle.std.specs.Prelude.{◌≡◌, [], false};

use super::codes::CodeTable;
use drive_line::Driven;
use lane_pair::{Ran, gather, run_pair};
use nc_number::{Both, NoMemory, Path};
use nc_outside::{Halt, MemoryTurret, Turret};
use std::alloc::Global;
use std::sync::Wait;
use std::sync::atomic::AtomicU64;
use std::test::Fail;
use std::thread;
use std::thread::{Scope, Threads};
use turret_run::give_turn;

/// Runs both paths of a table, with threads of this scope.
fn run_in<'s, 'a: 's, E, R, T>(
    rt: &'s R,
    alloc: Global,
    scope: &Scope<'s, E>,
    table: CodeTable<'a>,
    turrets: Both<T>,
) -> Result<Ran<CodeTable<'a>, T>, NoMemory>
where
    R: Threads + Wait + Sync + 's,
    T: Turret + Send + 's,
    requires { (table.first.items ≡ []) × (table.second.items ≡ []) × (table.asked ≡ false) }
{
    let crew = gather(rt, alloc, scope)?;
    match run_pair(rt, alloc, crew, table, turrets) {
        Ok(ran) => Ok(ran),
        Err(_) => Err(NoMemory),
    }
}

/// Runs both paths of a table.
fn run<'a, R: Threads + Wait + Sync, T: Turret + Send>(
    rt: &R,
    alloc: Global,
    table: CodeTable<'a>,
    turrets: Both<T>,
) -> Result<Ran<CodeTable<'a>, T>, NoMemory>
    requires { (table.first.items ≡ []) × (table.second.items ≡ []) × (table.asked ≡ false) }
{
    thread::scope(
        thread::scope_env(),
        rt,
        move |scope| -> Result<Ran<CodeTable<'_>, T>, NoMemory>
            requires { (table.first.items ≡ []) × (table.second.items ≡ []) × (table.asked ≡ false) }
        { run_in(rt, alloc, scope, table, turrets) },
    )
}

/// Runs path 1 up to 500 records, with a turret that fails at that call or at that settle. It
/// answers whether each turret failed and whether that halted the run, how many moves the turret of
/// path 1 got, and whether it got or missed all that were recorded.
fn failed<R: Threads + Wait + Sync>(
    rt: &R,
    alloc: Global,
    failing: u64,
    unsettled: u64,
) -> Result<(bool, bool, bool, usize, bool), NoMemory> {
    let steps = AtomicU64::new(0);
    let one = MemoryTurret::with_plans(alloc, 500, &[failing], &[unsettled])?;
    let two = MemoryTurret::new(alloc, 500, &[])?;
    let table = CodeTable::new(alloc, (500, 0), false, &steps);
    let Ran { table, turrets, .. } = run(rt, alloc, table, Both { one, two })?;
    let Both { one, two } = turrets;
    let (first_failed, second_failed) = (one.has_failed(), two.has_failed());
    let missed = one.missed();
    let got = one.into_turret().got().len();
    Ok((
        first_failed,
        second_failed,
        table.halt == Some(Halt::Turret(Path::One)),
        got,
        table.first.len() as u64 == missed.wrapping_add(got as u64),
    ))
}

#[test]
fn a_turret_that_fails_stops_both_paths(rt: HostRuntime) -> Result<(), Fail> {
    for (failing, unsettled, moves) in [(1, 0, 0), (2, 0, 1), (300, 0, 299), (0, 1, 500)] {
        let got = failed(&rt, rt.alloc(), failing, unsettled)?;
        assert_eq!(rt; got, (true, false, true, moves, true));
    }
    Ok(())
}

/// Gives path 1 so many turns, up to 20 records. It answers how many drains the table was told, how
/// many moves and rests the turret got, how many moves it missed, and whether it failed.
fn given<R: Wait>(
    rt: &R,
    alloc: Global,
    turns: u32,
    drains: bool,
    failing: u64,
    unsettled: u64,
) -> Result<(u64, usize, u64, bool), NoMemory> {
    let count = AtomicU64::new(0);
    let mut table = CodeTable::new(alloc, (20, 0), drains, &count);
    let turret = MemoryTurret::with_plans(alloc, 100, &[failing], &[unsettled])?;
    let mut driven = Driven::new(turret);
    for _ in 0..turns {
        give_turn(rt, &mut table, Path::One, &mut driven);
    }
    let (missed, failed) = (driven.missed(), driven.has_failed());
    let got = driven.into_turret().got().len();
    Ok((table.drained, got, missed, failed))
}

#[test]
fn single_turns_hand_their_moves_at_once(rt: HostRuntime) -> Result<(), Fail> {
    for (turns, drains, failing, unsettled, due) in [
        (12, false, 0, 0, (0, 12, 0, false)),
        (12, true, 0, 0, (1, 12, 0, false)),
        (12, false, 4, 0, (0, 3, 9, true)),
        (30, false, 0, 0, (0, 20, 0, false)),
        (12, true, 0, 1, (0, 0, 0, true)),
        (12, true, 3, 0, (1, 3, 9, true)),
    ] {
        let got = given(&rt, rt.alloc(), turns, drains, failing, unsettled)?;
        assert_eq!(rt; got, due);
    }
    Ok(())
}
