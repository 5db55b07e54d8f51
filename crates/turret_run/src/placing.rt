//! What is done before a run: leave for its records, and the places of both turrets, at which they
//! stand still before the first record.
//! For run.rt of this crate.
ghost use Rattle.std.specs.Prelude.{◌≡◌, IfErr, OnErr, OnOk};
ghost use Rattle.nc_number.specs.Both.{both_of};
ghost use Rattle.run_table.specs.Draining.{none_resting};
ghost use Rattle.turret_run.specs.Runs.{Stays};
ghost use Rattle.turret_run.specs.Rests.{ArePlaced, FailsAtPlace};
ghost use Rattle.turret_run.specs.Served.{IsPlaced, FailsPlace};

use disk_model::Disk;
use nc_number::{Both, Failed, NoMemory, Path, Point};
use nc_outside::{Rest, Turret};
use run_table::Table;

/// Gives leave for so many records, and makes room for them, or answers `NoMemory`. No turret counts as
/// told to rest for a wait then. All else of the table stays as it was.
pub(crate) fn make_ready<D: Disk>(table: &mut Table<D>, limit: u32) -> Result<(), NoMemory>
    ensures budget { OnOk result (table.new.budget ≡ limit) }
    ensures rests { OnOk result (table.new.resting ≡ none_resting) }
    ensures same { Stays table.old table.new }
{
    table.prepare(limit)
}

/// Places the turret there, and waits until it stands still at its place.
fn take_place<T: Turret>(turret: &mut T, at: Point) -> Result<(), Failed>
    ensures ok { OnOk result (IsPlaced at (T.state turret.old) (T.state turret.new)) }
    ensures err { OnErr result (FailsPlace at (T.state turret.old) (T.state turret.new)) }
{
    if let Err(fault) = turret.place(at) {
        return Err(fault);
    }
    if let Err(fault) = turret.settle(Rest::Place) {
        return Err(fault);
    }
    Ok(())
}

/// Places both turrets where their paths are, that of path 1 first. That of path 2 is placed once
/// the first one stands still at its place. An error is the path whose turret failed.
pub(crate) fn place_both<D: Disk, T: Turret>(
    table: &Table<D>,
    turrets: &mut Both<T>,
) -> Result<(), Path>
    ensures ok { OnOk result (ArePlaced table.now.machine
        (both_of T.state turrets.old) (both_of T.state turrets.new)) }
    ensures err { IfErr result (FailsAtPlace table.now.machine
        (both_of T.state turrets.old) (both_of T.state turrets.new)) }
{
    if let Err(_) = take_place(&mut turrets.one, table.position(Path::One)) {
        return Err(Path::One);
    }
    if let Err(_) = take_place(&mut turrets.two, table.position(Path::Two)) {
        return Err(Path::Two);
    }
    Ok(())
}
