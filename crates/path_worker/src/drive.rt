//! The drive of a turret: it takes the items of its line, hands the moves to the turret, and
//! answers marks, by which the worker asks whether the turret is at rest. lane.rt runs it in a
//! thread, and tests run it alone.
ghost use Rattle.std.specs.Prelude.{◌≡◌, ◌++◌, [], ◌∷◌, List, true, false};
ghost use Rattle.nc_outside.specs.Calls.{IsCalled};
ghost use Rattle.nc_outside.specs.declared.got.Got.{Got};
ghost use Rattle.nc_outside.specs.Received.{TurretState};
ghost use Rattle.drive_line.specs.declared.item.Item.{Item as Sent};
ghost use Rattle.drive_line.specs.Driving.{fresh_drive, has_failed, Serves};
ghost use Rattle.drive_line.specs.Line.{told_among, has_end};
ghost use Rattle.path_worker.specs.Drive.{halts_at, halts_for, once_halted, StandsAt};

use drive_line::{Driven, Item, LineOut, Phase};
use nc_number::Path;
use nc_outside::{Rest, Stepper, Turret};
use std::sync::Wait;

/// Serves an item: hands a move to the turret, and waits until it stands still at the mark of a wait
/// and when its path has ended.
fn serve<R: Wait, T: Turret>(rt: &R, item: &Item, driven: &mut Driven<T>)
    ensures serves { (items : List Sent) (start : TurretState) → Serves (told_among items) start driven.old
        → Serves (told_among (items ++ item.now ∷ [])) start driven.new }
    ensures stands { has_failed driven.old.phase ≡ false → StandsAt item.now driven.new.phase }
    ensures failed { has_failed driven.old.phase ≡ true → driven.new.phase ≡ driven.old.phase }
{
    match item {
        Item::Move(what) => driven.hand(rt, what),
        Item::Mark(code) => driven.settle(Rest::Wait(*code)),
        Item::Finish => driven.settle(Rest::End),
        Item::End => {}
    }
}

/// Halts the run for the path's turret, if it has failed and that has not been done yet.
fn halt_at_fault<H: Stepper, T: Turret>(path: Path, halter: &mut H, driven: &mut Driven<T>)
    ensures serves { (told : List Got) (start : TurretState)
        → Serves told start driven.old → Serves told start driven.new }
    ensures phase { driven.new.phase ≡ once_halted driven.old.phase }
    ensures halted { IsCalled (H.calls halter.old) (H.calls halter.new) (halts_for path driven.old.phase) }
    ensures origin { H.origin halter.new ≡ H.origin halter.old }
{
    match driven.phase() {
        Phase::Failed => driven.halt_by(halter, path),
        Phase::Moving => {}
        Phase::Still => {}
        Phase::Halted => {}
    }
}

/// Takes the items of the line until the end, and hands each move to the turret. A mark is answered
/// once the turret stands still behind every move before it, and where the path has ended it stands
/// still too. If the turret fails, the run is halted for that, and the turret is handed no more; marks are
/// answered then all the same.
pub fn run_drive<R: Wait, H: Stepper, T: Turret>(
    rt: &R,
    path: Path,
    line: &mut LineOut<T>,
    halter: &mut H,
    driven: &mut Driven<T>,
)
    requires line { (line.old.items ≡ []) × (line.old.asked ≡ false) }
    requires driven { driven.old ≡ fresh_drive driven.old.state }
    ensures line { (line.new.line ≡ line.old.line) × (has_end line.new.items ≡ true) }
    ensures serves { Serves (told_among line.new.items) driven.old.state driven.new }
    ensures halted { IsCalled (H.calls halter.old) (H.calls halter.new) (halts_at path (has_failed driven.new.phase)) }
    ensures origin { H.origin halter.new ≡ H.origin halter.old }
{
    for _ in rt.forever() {
        let item = line.take(rt);
        serve(rt, &item, driven);
        halt_at_fault(path, halter, driven);
        match item {
            Item::Move(_) => {}
            Item::Mark(_) => line.answer(rt, driven),
            Item::Finish => {}
            Item::End => return,
        }
    }
    unreachable!()
}
