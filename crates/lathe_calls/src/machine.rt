//! The machine after a history, whose records are done again one by one.
//! For this crate alone: running.rt shows the state of it.
ghost use Rattle.std.specs.Prelude.{◌≡◌, ◌≤◌, ◌<◌, length, IfOk, OnOk};
ghost use Rattle.nc_number.specs.declared.limits.TheConstants.{MOST_RECORDS};
ghost use Rattle.two_path.specs.Start.{machine_at_start};
ghost use Rattle.nc_restart.specs.Pair.{machine_behind, opening_of, tapes_in};
ghost use Rattle.two_path.specs.Histories.{IsLegal, IsNext, behind_entry, fold};
ghost use Rattle.two_path.specs.Joined.{AreAtTheirWaits};
ghost use Rattle.two_path.specs.Machine.{without_reads};
ghost use Rattle.two_path.specs.Turns.{tapes_of};

use cell_settings::Settings;
use nc_number::NoMemory;
use nc_verify::Verified;
use run_records::{Entry, EntryList};
use std::alloc::Global;
use tape_flow::Flow;
use two_path::{Machine, histories_are_runs};

/// Does a record again that is legal there. It asks for memory first.
fn do_again(machine: &mut Machine, left: &Flow, right: &Flow, entry: &Entry) -> Result<(), NoMemory>
    requires legal { IsNext (tapes_of left.now right.now) machine.old.machine entry.now }
    requires few { machine.old.machine.count ≤ MOST_RECORDS }
    requires no_reads { without_reads machine.old.machine ≡ machine.old.machine }
    requires waits { AreAtTheirWaits left.now.order right.now.order machine.old.machine }
    ensures machine { OnOk result (machine.new.machine
        ≡ behind_entry (tapes_of left.now right.now) entry.now machine.old.machine) }
    ensures no_reads { OnOk result (without_reads machine.new.machine ≡ machine.new.machine) }
    ensures waits { OnOk result (AreAtTheirWaits left.now.order right.now.order machine.new.machine) }
{
    machine.reserve(1)?;
    let _turn = machine.apply(left, right, entry).unwrap();
    Ok(())
}

/// The machine after a history of two flows: its records are done again once.
fn machine_done(
    alloc: Global,
    left: &Flow,
    right: &Flow,
    settings: &Settings,
    entries: &EntryList,
) -> Result<Machine, NoMemory>
    requires legal { IsLegal (tapes_of left.now right.now)
        (machine_at_start left.now right.now settings.now) entries.now.items }
    requires few { length entries.now.items ≤ MOST_RECORDS }
    ensures machine { IfOk result (λ machine. machine.machine
        ≡ fold (tapes_of left.now right.now) (machine_at_start left.now right.now settings.now) entries.now.items) }
    ensures no_reads { IfOk result (λ machine. without_reads machine.machine ≡ machine.machine) }
{
    histories_are_runs();
    let mut machine = Machine::new(alloc, left, right, settings)?;
    for index in 0..entries.len() {
        let entry = entries.get(index);
        do_again(&mut machine, left, right, &entry)?;
    }
    Ok(machine)
}

/// The machine after a history of the pair.
pub(crate) fn machine_behind(
    alloc: Global,
    pair: &Verified,
    entries: &EntryList,
) -> Result<Machine, NoMemory>
    requires legal { IsLegal (tapes_in pair.now) (opening_of pair.now) entries.now.items }
    requires few { length entries.now.items ≤ MOST_RECORDS }
    ensures machine { IfOk result (λ machine. machine.machine ≡ machine_behind pair.now entries.now.items) }
    ensures no_reads { IfOk result (λ machine. without_reads machine.machine ≡ machine.machine) }
{
    machine_done(alloc, pair.left(), pair.right(), pair.settings(), entries)
}
