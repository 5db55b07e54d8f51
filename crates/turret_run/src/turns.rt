//! Single turns of a path, without threads: for the turns that are left after a run of both paths.
//! For rest.rt of this crate.
ghost use Rattle.std.specs.Prelude.{◌≡◌, ◌≢◌, ◌∷◌, ◌++◌, [], List, map, ℕ};
ghost use Rattle.drive_line.specs.declared.phase.Phase.TheVariants.{Still};
ghost use Rattle.drive_line.specs.Driving.{Serves};
ghost use Rattle.turret_run.specs.Draining.{IsDrained};
ghost use Rattle.nc_number.specs.declared.path.Path.{Path as OnePath};
ghost use Rattle.nc_outside.specs.declared.got.Got.{Got};
ghost use Rattle.nc_outside.specs.declared.got.Got.TheVariants.{Moved, Rested};
ghost use Rattle.nc_outside.specs.declared.rest.Rest.TheVariants.{Wait as AtWait};
ghost use Rattle.nc_outside.specs.Lined.{lined_moves};
ghost use Rattle.nc_outside.specs.Received.{TurretState};
ghost use Rattle.seat_table.specs.Turning.{Draining, once_drained};
ghost use Rattle.turret_run.specs.Rests.{ServesOn};

use drive_line::{Driven, Phase};
use nc_moves::Moves;
use nc_number::Path;
use nc_outside::{LinedMove, Next, Rest, Turret};
use seat_table::Turns;
use std::sync::Wait;

/// Hands the moves of a block on to the turret, in order, until it fails.
fn hand_all<R: Wait, T: Turret>(rt: &R, block: &Moves, driven: &mut Driven<T>)
    ensures { (told : List Got) (start : TurretState)
        → Serves told start driven.old → Serves (told ++ map Moved (lined_moves block.now)) start driven.new }
{
    for what in block.list.as_slice() {
        let what = LinedMove {
            line: block.line,
            what: *what,
        };
        driven.hand(rt, &what);
    }
}

/// Tells the table that the path is drained: its turret stands still, and nothing is on its way.
fn tell_drained<C: Turns, T: Turret>(table: &mut C, path: Path, driven: &Driven<T>)
    requires { driven.now.phase ≡ Still }
    ensures told { (p : OnePath) → C.told table.new p ≡ C.told table.old p }
    ensures drained { C.drains table.new path ≡ once_drained (C.drains table.old path) }
{
    let _ = driven;
    table.drained(path);
}

/// Tells the turret to rest before the wait of this code, waits until it stands still, and then tells
/// the table that the path is drained. If the turret fails the table is told nothing.
fn drain<C: Turns, T: Turret>(table: &mut C, path: Path, code: u16, driven: &mut Driven<T>)
    ensures serves { (told : List Got) (start : TurretState)
        → Serves told start driven.old → Serves (told ++ Rested (AtWait code) ∷ []) start driven.new }
    ensures told { (p : OnePath) → C.told table.new p ≡ C.told table.old p }
    ensures drained { C.drains table.old path ≡ Draining.asked code
        → IsDrained code driven.new.phase (C.drains table.new path) }
{
    driven.settle(Rest::Wait(code));
    match driven.phase() {
        Phase::Still => tell_drained(table, path, driven),
        Phase::Moving => {}
        Phase::Failed => {}
        Phase::Halted => {}
    }
}

/// Gives a path one turn, and hands what it answers to the turret before anything else is done, until
/// it fails: moves, or a rest before a wait. If the path is to be drained it tells the table that it
/// is, once the turret stands still. If the turret fails in that, the table is told nothing.
pub fn give_turn<R: Wait, C: Turns, T: Turret>(
    rt: &R,
    table: &mut C,
    path: Path,
    driven: &mut Driven<T>,
)
    ensures serves { ServesOn (C.told table.old path) driven.old (C.told table.new path) driven.new }
    ensures drained { (code : ℕ) → C.drains table.old path ≡ Draining.due code
        → IsDrained code driven.new.phase (C.drains table.new path) }
    ensures others { (p : OnePath) → p ≢ path → C.told table.new p ≡ C.told table.old p }
{
    match table.turn_step(path) {
        Some(Next::Moves(block)) => hand_all(rt, &block, driven),
        Some(Next::Drain(code)) => drain(table, path, code, driven),
        Some(Next::Silent) => {}
        Some(Next::Finished) => {}
        Some(Next::Halted(_)) => {}
        None => {}
    }
}
