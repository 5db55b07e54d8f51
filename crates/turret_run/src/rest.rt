//! The turns that are left after the threads have ended, given one by one in the caller's thread, and
//! the rest of both turrets at the end. For run.rt of this crate.
ghost use Rattle.std.specs.Prelude.{◌≡◌, ◌++◌, ◌∷◌, ◌≢◌, [], true, List, IfNone, IfSome, None};
ghost use Rattle.drive_line.specs.Driving.{has_failed, Serves};
ghost use Rattle.nc_outside.specs.declared.got.Got.{Got};
ghost use Rattle.nc_outside.specs.declared.got.Got.TheVariants.{Rested};
ghost use Rattle.nc_outside.specs.declared.rest.Rest.TheVariants.{End as AtEnd};
ghost use Rattle.nc_outside.specs.Received.{TurretState};
ghost use Rattle.nc_number.specs.declared.path.Path.{Path as OnePath};
ghost use Rattle.nc_number.specs.declared.path.Path.TheVariants.{One, Two};
ghost use Rattle.path_worker.specs.Work.{told_at_end};
ghost use Rattle.run_table.specs.Holding.{told_since};
ghost use Rattle.turret_run.specs.Rests.{ServesBehind, HasCause, cause_behind, who_failed, first_failed};

use crate::turns::give_turn;
use disk_model::Disk;
use drive_line::Driven;
use nc_number::{Both, Path};
use nc_outside::{Reason, Rest, Turret};
use path_worker::Why;
use run_table::{Held, Opening};
use std::sync::Wait;

/// Which turrets have failed.
fn who_failed<T: Turret>(turrets: &Both<Driven<T>>) -> Both<bool>
    ensures { result ≡ who_failed turrets.now }
{
    Both {
        one: turrets.one.has_failed(),
        two: turrets.two.has_failed(),
    }
}

/// The path whose turret failed, or none. If both failed, it is path 1.
fn first_failed(failed: Both<bool>) -> Option<Path>
    ensures { result ≡ first_failed failed }
{
    if failed.one {
        return Some(Path::One);
    }
    if failed.two {
        return Some(Path::Two);
    }
    None
}

/// Why no turn is to be given any more, or none if the run goes on.
fn end_of_run<D: Disk, O: Opening<D>>(
    table: &mut Held<D, O>,
    failed: Option<Path>,
) -> Option<Reason>
    ensures ends { IfSome result (HasCause table.new failed) }
    ensures goes_on { IfNone result (failed ≡ None) }
    ensures same { (p : OnePath) → told_since O.opened table.new p ≡ told_since O.opened table.old p }
{
    Reason::of_causes(table.end(), failed)
}

/// Gives a path of the held table one turn, and what it answers to its turret. A path that has ended
/// gets none.
fn give_unless_ended<R: Wait, D: Disk, O: Opening<D>, T: Turret>(
    rt: &R,
    table: &mut Held<D, O>,
    path: Path,
    why: &Why,
    driven: &mut Driven<T>,
)
    ensures serves { ServesBehind why.now (told_since O.opened table.old path) driven.old
        (told_since O.opened table.new path) driven.new }
    ensures others { (p : OnePath) → p ≢ path → told_since O.opened table.new p ≡ told_since O.opened table.old p }
{
    match why {
        Why::Finished => {}
        Why::Halted(_) => give_turn(rt, table, path, driven),
    }
}

/// Gives a path of the held table one turn, unless it has ended. Once a turret has failed no turn is
/// given.
fn give_turn_of<R: Wait, D: Disk, O: Opening<D>, T: Turret>(
    rt: &R,
    table: &mut Held<D, O>,
    path: Path,
    turrets: &mut Both<Driven<T>>,
    whys: &Both<Why>,
)
    requires { first_failed (who_failed turrets.old) ≡ None }
    ensures one { ServesBehind whys.now.one (told_since O.opened table.old One) turrets.old.one
        (told_since O.opened table.new One) turrets.new.one }
    ensures two { ServesBehind whys.now.two (told_since O.opened table.old Two) turrets.old.two
        (told_since O.opened table.new Two) turrets.new.two }
{
    match path {
        Path::One => give_unless_ended(rt, table, Path::One, &whys.one, &mut turrets.one),
        Path::Two => give_unless_ended(rt, table, Path::Two, &whys.two, &mut turrets.two),
    }
}

/// Gives path 1 and path 2 one turn each, again and again, until the run ends or a turret fails,
/// and answers why. A path that has ended gets no turn.
pub(crate) fn give_rest<R: Wait, D: Disk, O: Opening<D>, T: Turret>(
    rt: &R,
    table: &mut Held<D, O>,
    turrets: &mut Both<Driven<T>>,
    whys: &Both<Why>,
) -> Reason
    ensures one { ServesBehind whys.now.one (told_since O.opened table.old One) turrets.old.one
        (told_since O.opened table.new One) turrets.new.one }
    ensures two { ServesBehind whys.now.two (told_since O.opened table.old Two) turrets.old.two
        (told_since O.opened table.new Two) turrets.new.two }
    ensures ends { HasCause table.new (first_failed (who_failed turrets.new)) result }
{
    let mut path = Path::One;
    for _ in rt.forever() {
        let failed = first_failed(who_failed(turrets));
        if let Some(end) = end_of_run(table, failed) {
            return end;
        }
        give_turn_of(rt, table, path, turrets, whys);
        path = path.other();
    }
    unreachable!()
}

/// Tells a turret to rest at the end, if it was not told so at the end of its path.
fn tell_end<T: Turret>(driven: &mut Driven<T>, why: &Why)
    ensures serves { (told : List Got) (start : TurretState) → Serves (told ++ told_at_end why.now) start driven.old
        → Serves (told ++ Rested AtEnd ∷ []) start driven.new }
    ensures failed { has_failed driven.old.phase ≡ true → has_failed driven.new.phase ≡ true }
{
    match why {
        Why::Finished => {}
        Why::Halted(_) => driven.settle(Rest::End),
    }
}

/// The first cause, once more turrets may have failed.
fn cause_behind(end: Reason, failed: Option<Path>) -> Reason
    ensures { result ≡ cause_behind end failed }
{
    if let Reason::DiskFault = end {
        return Reason::DiskFault;
    }
    match failed {
        Some(path) => Reason::TurretFault(path),
        None => end,
    }
}

/// Tells both turrets to rest at the end, and answers why the run ended, which may be that one failed
/// in that.
pub(crate) fn tell_ends<T: Turret>(
    turrets: &mut Both<Driven<T>>,
    whys: &Both<Why>,
    end: Reason,
) -> Reason
    ensures one { (told : List Got) (start : TurretState) → Serves (told ++ told_at_end whys.now.one) start turrets.old.one
        → Serves (told ++ Rested AtEnd ∷ []) start turrets.new.one }
    ensures two { (told : List Got) (start : TurretState) → Serves (told ++ told_at_end whys.now.two) start turrets.old.two
        → Serves (told ++ Rested AtEnd ∷ []) start turrets.new.two }
    ensures failed { (has_failed turrets.old.one.phase ≡ true → has_failed turrets.new.one.phase ≡ true)
        × (has_failed turrets.old.two.phase ≡ true → has_failed turrets.new.two.phase ≡ true) }
    ensures end { result ≡ cause_behind end (first_failed (who_failed turrets.new)) }
{
    tell_end(&mut turrets.one, &whys.one);
    tell_end(&mut turrets.two, &whys.two);
    cause_behind(end, first_failed(who_failed(turrets)))
}
