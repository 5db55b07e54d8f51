//! Turns of both paths, one after the other, until the run ends, and the records that they make.
//! What a turn does is in two_path. Tests read them.
ghost use Rattle.std.specs.Prelude.{◌≡◌, ◌<◌, ◌≤◌, ◌++◌, length, min, IfOk, OnOk};
ghost use Rattle.nc_number.specs.declared.limits.TheConstants.{MOST_RECORDS};
ghost use Rattle.two_path.specs.Turns.{tapes_of, turn_of, entry_of};
ghost use Rattle.two_path.specs.Histories.{IsLegal, list_of};
ghost use Rattle.two_path.specs.Joined.{AreAtTheirWaits};
ghost use Rattle.turn_order.specs.InTurn.{IsInTurn, start_of, tapes_in};
ghost use Rattle.turn_order.specs.Ending.{end_told};

use crate::ending::end_before;
use crate::laws::kept_runs_are_not_stuck;
use nc_moves::MoveList;
use nc_number::{NoMemory, Path};
use nc_outside::Reason;
use nc_verify::Verified;
use path_state::a_block_asks_for_each_variable_once_at_most;
use run_records::EntryList;
use std::alloc::Global;
use tape_flow::Flow;
use two_path::{
    Answered, Machine, a_machine_begins_without_waits, each_event_keeps_the_history,
    histories_are_runs,
};

/// A run whose paths took turns: its records, and why it ended.
#[derive(Drop)]
pub struct InTurn {
    /// The records of the run, in order.
    pub entries: EntryList,
    /// Why the run ended.
    pub end: Reason,
}

/// Gives the path its turn, and keeps the record that it makes, if it makes one. The list is lent
/// for its moves, which nobody asks for. The only error is that memory runs out.
fn give_turn(
    machine: &mut Machine,
    entries: &mut EntryList,
    moves: &mut MoveList,
    left: &Flow,
    right: &Flow,
    path: Path,
) -> Result<(), NoMemory>
    requires few { machine.old.machine.count < MOST_RECORDS }
    requires waits { AreAtTheirWaits left.now.order right.now.order machine.old.machine }
    ensures machine { OnOk result (machine.new.machine
        ≡ (turn_of (tapes_of left.now right.now) path machine.old.machine).machine) }
    ensures entries { OnOk result (entries.new.items
        ≡ entries.old.items ++ list_of (entry_of (tapes_of left.now right.now) path machine.old.machine)) }
    ensures waits { OnOk result (AreAtTheirWaits left.now.order right.now.order machine.new.machine) }
{
    machine.reserve(1)?;
    entries.reserve(1)?;
    let Answered { answer: _, entry } = machine.turn_into(left, right, path, moves);
    if let Some(entry) = entry {
        entries.push(entry);
    }
    Ok(())
}

/// How many records a run may have: as many as are asked for, and no more than the settings allow.
fn limit_of(most: u32, full: u32) -> u32
    ensures { result ≡ min most full }
{
    if most < full { most } else { full }
}

/// The records of a run of the pair whose paths take turns: path 1 and path 2, a turn each, from
/// path 1 on. A path that waits or has ended is passed over. The run ends with an alarm, with the
/// ends of both paths, or as soon as it has `most` records or as many as the settings allow. Each
/// turn is one block, one read of a shared variable, or nothing.
///
/// Room for records is asked for as they come. Errors: out of memory.
pub fn records_in_turn(alloc: Global, verified: &Verified, most: u32) -> Result<InTurn, NoMemory>
    ensures turns { IfOk result (λ run. IsInTurn (tapes_in verified.now) (start_of verified.now)
        (min most verified.now.settings.records) run.entries.items) }
    ensures end { IfOk result (λ run. run.end ≡ end_told (tapes_in verified.now) (start_of verified.now)
        verified.now.settings.records run.entries.items) }
    ensures legal { IfOk result (λ run. IsLegal (tapes_in verified.now) (start_of verified.now) run.entries.items) }
    ensures few { IfOk result (λ run. length run.entries.items ≤ MOST_RECORDS) }
{
    histories_are_runs();
    each_event_keeps_the_history();
    a_machine_begins_without_waits();
    kept_runs_are_not_stuck();
    a_block_asks_for_each_variable_once_at_most();
    let left = verified.left();
    let right = verified.right();
    let settings = verified.settings();
    let full = settings.records;
    let limit = limit_of(most, full);
    let mut machine = Machine::new(alloc, left, right, settings)?;
    let mut entries = EntryList::empty(alloc);
    let mut moves = MoveList::empty();
    let mut path = Path::One;
    loop {
        if let Some(end) = end_before(&machine, limit, full) {
            return Ok(InTurn { entries, end });
        }
        give_turn(&mut machine, &mut entries, &mut moves, left, right, path)?;
        path = path.other();
    }
}
