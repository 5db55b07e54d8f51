//! Turns in the order that a caller gives, one byte a turn, and the events of each.
//! For this crate alone: happening.rt uses it.
ghost use Rattle.std.specs.Prelude.{◌≡◌, ◌≤◌, ◌<◌, ◌++◌, map, OnOk};
ghost use Rattle.nc_number.specs.declared.limits.TheConstants.{MOST_RECORDS};
ghost use Rattle.two_path.specs.Turns.{tapes_of, turn_of};
ghost use Rattle.two_path.specs.Histories.{run, turns_of};
ghost use Rattle.two_path.specs.Joined.{AreAtTheirWaits};
ghost use Rattle.trace_list.specs.Trace.{line_of};
ghost use Rattle.lathe_calls.specs.Order.{end_after, events_from, turns_given, is_order, path_at};
ghost use Rattle.lathe_calls.specs.Events.{events_of_turn};

use crate::event::{Event, Stamp};
use crate::listing::push_turn;
use nc_number::{NoMemory, Path};
use nc_outside::Reason;
use tape_flow::Flow;
use trace_list::look_of;
use two_path::Machine;

/// Whether each byte of the order names a path.
pub(crate) fn is_order(order: &[u8]) -> bool
    ensures { result ≡ is_order order.now }
{
    order.iter().all(|byte| *byte == 1 || *byte == 2)
}

/// The path that a byte of an order names.
fn path_at(byte: u8) -> Path
    ensures { result ≡ path_at byte }
{
    if byte == 2 { Path::Two } else { Path::One }
}

/// The line of its tape at which a path stands.
fn line_of(machine: &Machine, left: &Flow, right: &Flow, path: Path) -> u32
    ensures { result ≡ line_of (tapes_of left.now right.now) path machine.now.machine }
{
    match path {
        Path::One => machine.path(Path::One).line(left),
        Path::Two => machine.path(Path::Two).line(right),
    }
}

/// Gives a path its turn, and lists the events of it.
fn give_turn(
    list: &mut Vec<Event>,
    machine: &mut Machine,
    left: &Flow,
    right: &Flow,
    path: Path,
) -> Result<(), NoMemory>
    requires few { machine.old.machine.count < MOST_RECORDS }
    requires waits { AreAtTheirWaits left.now.order right.now.order machine.old.machine }
    ensures list { OnOk result (list.new.items ≡ list.old.items
        ++ events_of_turn (tapes_of left.now right.now) path machine.old.machine) }
    ensures machine { OnOk result (machine.new.machine
        ≡ (turn_of (tapes_of left.now right.now) path machine.old.machine).machine) }
    ensures waits { OnOk result (AreAtTheirWaits left.now.order right.now.order machine.new.machine) }
{
    machine.reserve(1)?;
    let line = line_of(machine, left, right, path);
    let before = look_of(machine.path(path));
    let turned = machine.turn(left, right, path);
    let after = look_of(machine.path(path));
    let at = Stamp {
        records: machine.count(),
        path,
        line,
    };
    push_turn(list, at, &before, &after, &turned.turn)
}

/// Gives the paths their turns in this order, as long as there are fewer records than there may be,
/// and lists the events.
pub(crate) fn give_turns(
    list: &mut Vec<Event>,
    machine: &mut Machine,
    left: &Flow,
    right: &Flow,
    most: u32,
    order: &[u8],
) -> Result<(), NoMemory>
    requires few { most ≤ MOST_RECORDS }
    requires waits { AreAtTheirWaits left.now.order right.now.order machine.old.machine }
    ensures list { OnOk result (list.new.items ≡ list.old.items
        ++ events_from (tapes_of left.now right.now) machine.old.machine
        (turns_given (tapes_of left.now right.now) most machine.old.machine (map path_at order.now))) }
    ensures machine { OnOk result (machine.new.machine ≡ run (tapes_of left.now right.now) machine.old.machine
        (turns_of (turns_given (tapes_of left.now right.now) most machine.old.machine (map path_at order.now)))) }
{
    for byte in order {
        if machine.count() >= most {
            return Ok(());
        }
        give_turn(list, machine, left, right, path_at(*byte))?;
    }
    Ok(())
}

/// How far a run has come that may have so many records: to its end, to that many, or to the end of
/// the order.
pub(crate) fn end_after(machine: &Machine, most: u32) -> Reason
    ensures { result ≡ end_after most machine.now.machine }
{
    match machine.end() {
        Some(end) => end,
        None if machine.count() >= most => Reason::Full,
        None => Reason::Stopped,
    }
}
