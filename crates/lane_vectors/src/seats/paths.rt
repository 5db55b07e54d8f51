//! Tests of seats: paths that walk in threads, and what each got of the moves of its records. The
//! table is in memory.rt.
ghost use Rattle.std.specs.Prelude.{◌≡◌};
ghost use Rattle.nc_outside.specs.Calls.{told_by};
ghost use Rattle.nc_number.specs.declared.path.Path.TheVariants.{One};
ghost use Rattle.seat_table.specs.Passes.{fresh_halter};

use super::memory::{MemoryTable, yield_often};
use nc_moves::{Move, Moves};
use nc_number::{NoMemory, Path};
use nc_outside::{Drain, Drainable, Halt, Next, Stepper};
use seat_table::{HaltPass, SeatPass, SeatTable, Seated};
use std::alloc::Global;
use std::sync::Wait;
use std::sync::atomic::Ordering::SeqCst;
use std::test::*;
use std::thread;
use std::thread::Threads;

/// A proof of a drain, as a stepper takes it: so many moves were sent.
#[derive(Drop)]
struct Sent {
    /// How many moves were sent before the drain.
    count: u64,
}

impl Drain for Sent {
    ghost count = { λ s. s.count };

    fn count(&self) -> u64 {
        self.count
    }
}

/// The auxiliary codes of a path, or that there was no memory for them.
type Codes = Result<Vec<u16>, NoMemory>;

/// Adds the auxiliary codes of a block's moves to those before.
fn keep(codes: &mut Vec<u16>, moves: &Moves) -> Result<(), NoMemory> {
    for what in moves.list.as_slice() {
        if let Move::Aux { m } = *what {
            codes.push(m)?;
        }
    }
    Ok(())
}

/// One step, and a drain after it. None if the path goes on no further.
fn walk_once<S: Stepper + Drainable<Sent>>(
    path: Path,
    stepper: &mut S,
    codes: &mut Vec<u16>,
) -> Option<Result<(), NoMemory>>
    ensures { S.origin stepper.new ≡ S.origin stepper.old }
{
    let Next::Moves(moves) = stepper.step(path) else {
        return None;
    };
    stepper.drained(path, Sent { count: 1 });
    Some(keep(codes, &moves))
}

/// Steps until the path goes on no further, and keeps its codes.
fn walk<R: Wait, S: Stepper + Drainable<Sent>>(
    rt: &R,
    alloc: Global,
    path: Path,
    stepper: &mut S,
) -> Codes
    ensures origin { S.origin stepper.new ≡ S.origin stepper.old }
{
    let mut codes = Vec::new(alloc);
    for _ in rt.forever() {
        match walk_once(path, stepper, &mut codes) {
            None => return Ok(codes),
            Some(Err(wanting)) => return Err(wanting),
            Some(Ok(())) => {}
        }
    }
    unreachable!()
}

/// Compiles only if the value may go to another thread.
fn is_sent<T: Send>(_value: &T) {}

/// Steps the path of the pass to its end, and keeps the codes of its moves.
fn work<R: Wait + Sync>(
    rt: &R,
    alloc: Global,
    table: &SeatTable<MemoryTable>,
    pass: SeatPass<MemoryTable>,
) -> (SeatPass<MemoryTable>, Codes)
    requires table { pass.table ≡ table.now }
    requires told { told_by pass.calls ≡ pass.told }
    ensures { (result.0.table ≡ table.now) × (result.0.path ≡ pass.path) }
{
    let path = pass.path();
    let mut stepper = table.stepper(rt, pass);
    is_sent(&stepper);
    let codes = walk(rt, alloc, path, &mut stepper);
    (stepper.into_pass(), codes)
}

/// Looks on for a while, and then halts for the turret of path 1.
fn look_on<R: Wait + Sync>(
    rt: &R,
    table: &SeatTable<MemoryTable>,
    pass: HaltPass<MemoryTable>,
) -> HaltPass<MemoryTable>
    requires { pass ≡ fresh_halter table.now One }
    ensures { (result.table ≡ pass.table) × (result.path ≡ pass.path) }
{
    yield_often(20_000);
    let mut halter = table.halter(rt, pass);
    is_sent(&halter);
    halter.halt(Halt::Turret(Path::One));
    halter.into_pass()
}

/// The table after a run, and the codes that each path got.
#[derive(Drop)]
struct Ran {
    /// The table after the run.
    table: MemoryTable,
    /// The codes that path 1 got.
    first: Vec<u16>,
    /// The codes that path 2 got.
    second: Vec<u16>,
}

/// Runs both paths, up to `goal` records each, with turns that last `lasts` yields.
fn run_both<R: Threads + Wait + Sync>(
    rt: &R,
    alloc: Global,
    goal: usize,
    lasts: u32,
) -> Result<Ran, NoMemory> {
    let Ok(seated) = SeatTable::new(alloc, MemoryTable::new(alloc, goal, lasts)) else {
        return Err(NoMemory);
    };
    let Seated {
        table,
        first,
        second,
        first_halt,
        second_halt,
    } = seated;
    let both = &table;
    let ((first, one), (second, two)) = thread::join(
        rt,
        move || -> (SeatPass<MemoryTable>, Codes)
            requires { (first.table ≡ both.now) × (told_by first.calls ≡ first.told) }
            ensures { (result.0.table ≡ first.table) × (result.0.path ≡ first.path) }
        { work(rt, alloc, both, first) },
        move || -> (SeatPass<MemoryTable>, Codes)
            requires { (second.table ≡ both.now) × (told_by second.calls ≡ second.told) }
            ensures { (result.0.table ≡ second.table) × (result.0.path ≡ second.path) }
        { work(rt, alloc, both, second) },
    );
    let table = table.close(first, second, first_halt, second_halt);
    Ok(Ran {
        table,
        first: one?,
        second: two?,
    })
}

/// Runs path 2 alone, which waits for path 1 until the run is halted.
fn run_second<R: Threads + Wait + Sync>(
    rt: &R,
    alloc: Global,
) -> Result<(MemoryTable, Vec<u16>), NoMemory> {
    let Ok(seated) = SeatTable::new(alloc, MemoryTable::new(alloc, 5, 0)) else {
        return Err(NoMemory);
    };
    let Seated {
        table,
        first,
        second,
        first_halt,
        second_halt,
    } = seated;
    let both = &table;
    let (first_halt, (second, codes)) = thread::join(
        rt,
        move || -> HaltPass<MemoryTable>
            requires { first_halt ≡ fresh_halter both.now One }
            ensures { (result.table ≡ first_halt.table) × (result.path ≡ first_halt.path) }
        { look_on(rt, both, first_halt) },
        move || -> (SeatPass<MemoryTable>, Codes)
            requires { (second.table ≡ both.now) × (told_by second.calls ≡ second.told) }
            ensures { (result.0.table ≡ second.table) × (result.0.path ≡ second.path) }
        { work(rt, alloc, both, second) },
    );
    let table = table.close(first, second, first_halt, second_halt);
    Ok((table, codes?))
}

/// How many codes each path got, whether they are those of its records, and how many drains the
/// table was told.
fn told_of(ran: &Ran) -> (usize, usize, bool, bool, u64) {
    (
        ran.first.len(),
        ran.second.len(),
        ran.first.as_slice() == ran.table.first.as_slice(),
        ran.second.as_slice() == ran.table.second.as_slice(),
        ran.table.drains,
    )
}

#[test]
fn each_path_gets_the_moves_of_its_records(rt: HostRuntime) -> Result<(), Fail> {
    for (goal, lasts, drains) in [
        (0usize, 0u32, 0u64),
        (1, 0, 2),
        (100, 0, 200),
        (20, 2_000, 40),
    ] {
        let ran = run_both(&rt, rt.alloc(), goal, lasts)?;
        assert_eq!(rt; told_of(&ran), (goal, goal, true, true, drains));
    }
    Ok(())
}

/// Path 1 halts the run by its own pass and then asks for a step.
fn halt_first<R: Wait>(rt: &R, alloc: Global) -> Result<(MemoryTable, Next), NoMemory> {
    let Ok(seated) = SeatTable::new(alloc, MemoryTable::new(alloc, 5, 0)) else {
        return Err(NoMemory);
    };
    let Seated {
        table,
        mut first,
        second,
        first_halt,
        second_halt,
    } = seated;
    table.halt_path(rt, &mut first, Halt::Turret(Path::One));
    let next = table.step(rt, &mut first);
    let table = table.close(first, second, first_halt, second_halt);
    Ok((table, next))
}

#[test]
fn a_path_halts_the_run(rt: HostRuntime) -> Result<(), Fail> {
    let (table, next) = halt_first(&rt, rt.alloc())?;
    assert_eq!(rt; table.halt, Some(Halt::Turret(Path::One)));
    assert!(rt; matches!(next, Next::Halted(Halt::Turret(Path::One))));
    Ok(())
}

#[test]
fn a_path_that_waits_sleeps_until_the_table_has_changed(rt: HostRuntime) -> Result<(), Fail> {
    let (table, codes) = run_second(&rt, rt.alloc())?;
    assert_eq!(rt; codes.len(), 0);
    assert_eq!(rt; table.halt, Some(Halt::Turret(Path::One)));
    assert!(rt; table.looks.load(SeqCst) < 50);
    Ok(())
}
