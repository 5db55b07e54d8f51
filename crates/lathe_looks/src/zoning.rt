//! The command `zones`: its file, whose bad line is refused as 92, and what it asks for, of the run
//! whose journal is on the disk, or of the files of a pair. What is due to it is in zone_calls.
ghost use Rattle.std.specs.Prelude.{◌≡◌, ◌<◌, ◌^◌, Ok, length, IfOk, IfErr};
ghost use Rattle.zone_cell.specs.Plans.{plan_of};
ghost use Rattle.lathe_calls.specs.Answers.{Ends};
ghost use Rattle.lathe_looks.specs.Fetched.{IsOfFiles};
ghost use Rattle.lathe_looks.specs.Named.{only_text, zones_and_pair, zones_before, zones_named};
ghost use Rattle.lathe_looks.specs.Shown.{IsShown};
ghost use Rattle.lathe_looks.specs.Texts.{files_in};
ghost use Rattle.lathe_looks.specs.Zoned.{AreZonesFor, IsPlanOf, IsPlanned};
ghost use Rattle.zone_calls.specs.Zoned.{IsUnzoned};

use crate::asking::lent;
use crate::fetching::{fetch_zoned_pair, fetch_zones, tell_unfetched};
use crate::files::FileNames;
use crate::refusing::tell_unfound;
use crate::showing::Shown;
use crate::standing::reason_of;
use disk_model::Disk;
use lathe_calls::Status;
use nc_number::Failing;
use nc_outside::{Shelf, Sink};
use nc_restart::recover;
use std::alloc::Global;
use zone_calls::{tell_bad_zone, tell_plan, tell_zones};
use zone_cell::{Plan, read_plan};

/// What a file of zones asks for. If the file can't be read or has a bad line, that is written, and
/// the error is the exit status; if memory ran out, nothing is written.
pub fn plan_of_file<H: Shelf, K: Sink>(
    alloc: Global,
    name: &str,
    shelf: &mut H,
    out: &mut K,
) -> Result<Plan, u8>
    ensures read { IfOk result (λ plan. IsPlanOf (H.state shelf.old) (H.state shelf.new) name.now plan) }
    ensures silent { IfOk result (λ plan. K.state out.new ≡ K.state out.old) }
    ensures told { IfErr result (λ status. Ends (IsOfFiles only_text (zones_named name.now) (Unit {0}) IsUnzoned
        (H.state shelf.old) (H.state shelf.new)) (K.state out.old) (K.state out.new) status) }
{
    match fetch_zones(alloc, shelf, name) {
        Ok(text) => plan_of_text(alloc, &text, out),
        Err(error) => Err(tell_unfetched(alloc, &error, out)),
    }
}

/// What a text of zones asks for. If a line is bad, the first such line is written, and the error is
/// the exit status; if memory ran out, nothing is written.
fn plan_of_text<K: Sink>(alloc: Global, text: &[u8], out: &mut K) -> Result<Plan, u8>
    requires { length text.now < 2 ^ 32 }
    ensures read { IfOk result (λ plan. plan_of text.now ≡ Ok plan) }
    ensures silent { IfOk result (λ plan. K.state out.new ≡ K.state out.old) }
    ensures told { IfErr result (λ status. Ends (IsUnzoned text.now) (K.state out.old) (K.state out.new) status) }
{
    match read_plan(alloc, text) {
        Ok(plan) => Ok(plan),
        Err(Failing::Fault(fault)) => Err(tell_bad_zone(fault, out)),
        Err(Failing::NoMemory) => Err(Status::NoMemory as u8),
    }
}

/// Writes the zones of the run whose journal is on the disk, or what is hit in it, or why there is
/// none.
pub fn show_zones<D: Disk, K: Sink>(alloc: Global, plan: &Plan, disk: D, out: &mut K) -> Shown<D>
    ensures { Ends (IsShown (IsPlanned plan.now) (D.state disk) (D.state result.disk))
        (K.state out.old) (K.state out.new) result.status }
{
    match recover(alloc, disk) {
        Ok(found) => {
            let reason = reason_of(&found.machine);
            let status = tell_plan(alloc, plan, &found.verified, &found.entries, &reason, out);
            Shown {
                status,
                disk: found.journal.into_disk(),
            }
        }
        Err((disk, fault)) => Shown {
            status: tell_unfound(fault, out),
            disk,
        },
    }
}

/// Writes what a file of zones asks for of the run of the files of a pair whose paths take turns, of
/// at most `limit` records, and gives the exit status: 0; 1 if the zones, a tape or the settings are
/// refused, the zones first; that of the first file that can't be read, the file of zones first; 5 if
/// the sink failed; or 12 if memory ran out. Settings that are not named are empty.
pub fn ask_zones<H: Shelf, K: Sink>(
    alloc: Global,
    name: &str,
    names: &FileNames<'_>,
    limit: u32,
    shelf: &mut H,
    out: &mut K,
) -> u8
    ensures { Ends (IsOfFiles zones_and_pair (zones_before name.now (files_in names.now)) (Unit {0}) (AreZonesFor limit)
        (H.state shelf.old) (H.state shelf.new)) (K.state out.old) (K.state out.new) result }
{
    match fetch_zoned_pair(alloc, shelf, name, names) {
        Ok(texts) => tell_zones(alloc, &lent(&texts.pair), &texts.zones, limit, out),
        Err(error) => tell_unfetched(alloc, &error, out),
    }
}
