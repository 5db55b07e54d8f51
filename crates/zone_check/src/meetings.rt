//! The zones of a run's history, whose records are done again one by one: an area of each path for
//! each segment, up to a meeting or the end.
ghost use Rattle.std.specs.Prelude.{◌≡◌, ◌≤◌, [], length, IfOk};
ghost use Rattle.nc_number.specs.declared.limits.TheConstants.{MOST_RECORDS};
ghost use Rattle.two_path.specs.Turns.{tapes_of};
ghost use Rattle.two_path.specs.Histories.{IsLegal};
ghost use Rattle.two_path.specs.Start.{machine_at_start};
ghost use Rattle.zone_check.specs.Segments.{zones_of_history};
ghost use Rattle.zone_check.specs.Kept.{standing_at, zones_from};

use crate::standing::Kept;
use cell_settings::Settings;
use nc_number::NoMemory;
use nc_verify::Verified;
use run_records::EntryList;
use std::alloc::Global;
use tape_flow::Flow;
use two_path::{Machine, done_again, histories_are_runs};
use zone_cell::{Zone, Zones};

/// Does the records of a history again, one by one, on a machine of the pair, and keeps the zones.
fn kept_boxes(
    alloc: Global,
    left: &Flow,
    right: &Flow,
    settings: &Settings,
    entries: &EntryList,
    zones: &Zones,
) -> Result<Vec<Zone>, NoMemory>
    requires legal { IsLegal (tapes_of left.now right.now)
        (machine_at_start left.now right.now settings.now) entries.now.items }
    requires few { length entries.now.items ≤ MOST_RECORDS }
    ensures { IfOk result (λ v. v.items ≡ zones_from (tapes_of left.now right.now) zones.now
        (machine_at_start left.now right.now settings.now)
        (record { list = []; standing = standing_at (machine_at_start left.now right.now settings.now) })
        entries.now.items) }
{
    histories_are_runs();
    let mut machine = Machine::new(alloc, left, right, settings)?;
    machine.reserve(entries.len())?;
    let mut kept = Kept::at(alloc, &machine);
    for index in 0..entries.len() {
        let entry = entries.get(index);
        let turn = done_again(&mut machine, left, right, &entry);
        kept.take(zones, &entry, &turn, &machine)?;
    }
    kept.into_list(zones)
}

/// The zones of a history of the pair: one for each segment, in order, the first before the first
/// meeting. The records are done again once.
///
/// It asks for a legal history of at most 4,000,000 records (`MOST_RECORDS` of nc_number).
pub fn boxes(
    alloc: Global,
    verified: &Verified,
    entries: &EntryList,
    zones: &Zones,
) -> Result<Vec<Zone>, NoMemory>
    requires legal { IsLegal (tapes_of verified.now.left verified.now.right)
        (machine_at_start verified.now.left verified.now.right verified.now.settings) entries.now.items }
    requires few { length entries.now.items ≤ MOST_RECORDS }
    ensures { IfOk result (λ v. v.items ≡ zones_of_history (tapes_of verified.now.left verified.now.right)
        (machine_at_start verified.now.left verified.now.right verified.now.settings) zones.now entries.now.items) }
{
    kept_boxes(
        alloc,
        verified.left(),
        verified.right(),
        verified.settings(),
        entries,
        zones,
    )
}
