//! An operator's edit of a machine, whose record a second machine does again. walk.rt calls it for
//! the words of a row that are edits.
ghost use Rattle.std.specs.Prelude.{◌≡◌};
ghost use Rattle.two_path.specs.Machine.{without_reads};
ghost use Rattle.two_path.specs.Joined.{AreAtTheirWaits};

use crate::edit::edits_of;
use crate::held::state_of;
use crate::walk::{make_room, put_disagreement, put_given, put_other};
use edit_texts::PathEdit;
use nc_number::NoMemory;
use run_records::Entry;
use std::alloc::Global;
use tape_flow::Flow;
use two_path::Machine;

/// An edit on both machines, where no alarm has stopped them.
fn put_both(
    out: &mut String,
    alloc: Global,
    machine: &mut Machine,
    second: &mut Machine,
    left: &Flow,
    right: &Flow,
    what: &PathEdit,
) -> Result<(), NoMemory>
    requires waits { AreAtTheirWaits left.now.order right.now.order machine.old.machine }
    requires no_reads { without_reads second.old.machine ≡ second.old.machine }
    requires second_waits { AreAtTheirWaits left.now.order right.now.order second.old.machine }
    ensures waits { AreAtTheirWaits left.now.order right.now.order machine.new.machine }
    ensures no_reads { without_reads second.new.machine ≡ second.new.machine }
    ensures second_waits { AreAtTheirWaits left.now.order right.now.order second.new.machine }
{
    make_room(machine)?;
    if machine.alarm().is_some() {
        return Ok(out.push_str("halted")?);
    }
    out.push_str("edited")?;
    put_other(
        out,
        alloc,
        second,
        left,
        right,
        &machine.edit(what.path, &what.edit),
        "edited",
    )
}

/// The first edit of a line on both machines, which then hold the same.
pub(crate) fn put_edit(
    out: &mut String,
    alloc: Global,
    machine: &mut Machine,
    second: &mut Machine,
    left: &Flow,
    right: &Flow,
    line: &str,
) -> Result<(), NoMemory>
    requires waits { AreAtTheirWaits left.now.order right.now.order machine.old.machine }
    requires no_reads { without_reads second.old.machine ≡ second.old.machine }
    requires second_waits { AreAtTheirWaits left.now.order right.now.order second.old.machine }
    ensures waits { AreAtTheirWaits left.now.order right.now.order machine.new.machine }
    ensures no_reads { without_reads second.new.machine ≡ second.new.machine }
    ensures second_waits { AreAtTheirWaits left.now.order right.now.order second.new.machine }
{
    let edits = edits_of(alloc, line)?;
    let Some(what) = edits.as_slice().first() else {
        return Err(NoMemory);
    };
    put_both(out, alloc, machine, second, left, right, what)?;
    Ok(put_disagreement(out, alloc, machine, second, left, right)?)
}

/// The record of the first edit of a line, which the second machine is given, and its answer.
pub(crate) fn put_edit_record(
    out: &mut String,
    alloc: Global,
    second: &mut Machine,
    left: &Flow,
    right: &Flow,
    line: &str,
) -> Result<(), NoMemory>
    requires no_reads { without_reads second.old.machine ≡ second.old.machine }
    requires waits { AreAtTheirWaits left.now.order right.now.order second.old.machine }
    ensures no_reads { without_reads second.new.machine ≡ second.new.machine }
    ensures waits { AreAtTheirWaits left.now.order right.now.order second.new.machine }
{
    let edits = edits_of(alloc, line)?;
    let Some(what) = edits.as_slice().first() else {
        return Err(NoMemory);
    };
    let before = state_of(alloc, second, left, right)?;
    put_given(
        out,
        alloc,
        second,
        left,
        right,
        &Entry::of_edit(what.path, &what.edit),
        before.as_str(),
    )
}
