//! What is hit in each segment of a run's history, move by move; its records are done again one by
//! one.
ghost use Rattle.std.specs.Prelude.{◌≡◌, ◌≤◌, [], None, length, IfOk};
ghost use Rattle.nc_number.specs.declared.limits.TheConstants.{MOST_RECORDS};
ghost use Rattle.two_path.specs.Turns.{tapes_of};
ghost use Rattle.two_path.specs.Histories.{IsLegal};
ghost use Rattle.two_path.specs.Start.{machine_at_start};
ghost use Rattle.zone_check.specs.Laps.{findings_of_history};
ghost use Rattle.zone_check.specs.Trailed.{trails_at, findings_from};

use crate::trailing::Found;
use cell_settings::Settings;
use nc_number::NoMemory;
use nc_verify::Verified;
use run_records::EntryList;
use std::alloc::Global;
use tape_flow::Flow;
use two_path::{Machine, done_again, histories_are_runs};
use zone_cell::Finding;
use zone_moves::Cell;

/// Does the records of a history again, one by one, on a machine of the pair, and keeps what is hit.
fn kept_findings(
    alloc: Global,
    left: &Flow,
    right: &Flow,
    settings: &Settings,
    entries: &EntryList,
    cell: &Cell,
) -> Result<Vec<Finding>, NoMemory>
    requires legal { IsLegal (tapes_of left.now right.now)
        (machine_at_start left.now right.now settings.now) entries.now.items }
    requires few { length entries.now.items ≤ MOST_RECORDS }
    ensures { IfOk result (λ v. v.items ≡ findings_from (tapes_of left.now right.now) cell.now
        (machine_at_start left.now right.now settings.now)
        (record { list = []; met = None; trails = trails_at cell.now (machine_at_start left.now right.now settings.now) })
        entries.now.items) }
{
    histories_are_runs();
    let mut machine = Machine::new(alloc, left, right, settings)?;
    machine.reserve(entries.len())?;
    let mut kept = Found::at(alloc, cell, &machine)?;
    for index in 0..entries.len() {
        let entry = entries.get(index);
        let turn = done_again(&mut machine, left, right, &entry);
        kept.take(alloc, cell, &entry, &turn, &machine)?;
    }
    kept.into_list(alloc, cell)
}

/// What is hit in each segment of a history of the pair, in order, the first before the first
/// meeting: of each pair of moves the first that come within the gap with the bodies of their tools,
/// or the first move that comes near a fixed box. The records are done again once.
///
/// It asks for a legal history of at most 4,000,000 records (`MOST_RECORDS` of nc_number).
pub fn findings(
    alloc: Global,
    verified: &Verified,
    entries: &EntryList,
    cell: &Cell,
) -> Result<Vec<Finding>, NoMemory>
    requires legal { IsLegal (tapes_of verified.now.left verified.now.right)
        (machine_at_start verified.now.left verified.now.right verified.now.settings) entries.now.items }
    requires few { length entries.now.items ≤ MOST_RECORDS }
    ensures { IfOk result (λ v. v.items ≡ findings_of_history (tapes_of verified.now.left verified.now.right)
        (machine_at_start verified.now.left verified.now.right verified.now.settings) cell.now entries.now.items) }
{
    kept_findings(
        alloc,
        verified.left(),
        verified.right(),
        verified.settings(),
        entries,
        cell,
    )
}
