//! The moves of a history, whose records are done again one by one.
//! For this crate alone: report.rt and summary.rt begin with it.
ghost use Rattle.std.specs.Prelude.{◌≡◌, ◌≤◌, [], ◌++◌, length, IfOk, OnOk};
ghost use Rattle.nc_number.specs.declared.limits.TheConstants.{MOST_RECORDS};
ghost use Rattle.nc_number.specs.declared.path.Path.TheVariants.{One, Two};
ghost use Rattle.nc_outside.specs.Lined.{lined_moves};
ghost use Rattle.two_path.specs.Turns.{tapes_of};
ghost use Rattle.two_path.specs.Histories.{IsLegal, fold};
ghost use Rattle.two_path.specs.Made.{moves_made_by, moves_made_in, moves_of};
ghost use Rattle.two_path.specs.Start.{machine_at_start};

use cell_settings::Settings;
use nc_moves::{Move, Moves};
use nc_number::{Both, NoMemory, Path};
use nc_outside::LinedMove;
use run_records::EntryList;
use std::alloc::Global;
use tape_flow::Flow;
use two_path::{Machine, Turn, done_again, histories_are_runs};

/// Adds the moves of a block, each with its line.
fn add_moves(list: &mut Vec<LinedMove>, moves: &Moves) -> Result<(), NoMemory>
    ensures { OnOk result (list.new.items ≡ list.old.items ++ lined_moves moves.now) }
{
    let line = moves.line;
    let made = moves.list.as_slice();
    for what in made {
        let what: Move = *what;
        list.push(LinedMove { line, what })?;
    }
    Ok(())
}

/// Adds the moves of a turn.
fn add_turn(list: &mut Vec<LinedMove>, turn: &Turn) -> Result<(), NoMemory>
    ensures { OnOk result (list.new.items ≡ list.old.items ++ moves_made_in turn.now) }
{
    match turn {
        Turn::Did { moves } => add_moves(list, moves),
        Turn::Ended { moves } => add_moves(list, moves),
        _ => Ok(()),
    }
}

/// Lists of both paths without a move.
fn no_moves(alloc: Global) -> Both<Vec<LinedMove>>
    ensures one { result.one.items ≡ [] }
    ensures two { result.two.items ≡ [] }
{
    Both {
        one: Vec::new(alloc),
        two: Vec::new(alloc),
    }
}

/// Adds the moves of a path's turn.
fn add_turn_of(made: &mut Both<Vec<LinedMove>>, path: Path, turn: &Turn) -> Result<(), NoMemory>
    ensures one { OnOk result (made.new.one.items
        ≡ made.old.one.items ++ moves_made_by One (record { path = path; turn = turn.now })) }
    ensures two { OnOk result (made.new.two.items
        ≡ made.old.two.items ++ moves_made_by Two (record { path = path; turn = turn.now })) }
{
    match path {
        Path::One => add_turn(&mut made.one, turn),
        Path::Two => add_turn(&mut made.two, turn),
    }
}

/// A history that was done again: the moves that its records made, and the machine after them.
#[derive(Drop)]
pub(crate) struct DoneAgain {
    /// The moves of each path in order, each with the line of the tape whose block made it.
    pub(crate) made: Both<Vec<LinedMove>>,
    /// The machine after all records.
    pub(crate) machine: Machine,
}

/// Does the records of a history again, one by one, on a machine of the pair.
pub(crate) fn history_done(
    alloc: Global,
    left: &Flow,
    right: &Flow,
    settings: &Settings,
    entries: &EntryList,
) -> Result<DoneAgain, NoMemory>
    requires legal { IsLegal (tapes_of left.now right.now)
        (machine_at_start left.now right.now settings.now) entries.now.items }
    requires few { length entries.now.items ≤ MOST_RECORDS }
    ensures one { IfOk result (λ done. done.made.one.items
        ≡ moves_of (tapes_of left.now right.now) (machine_at_start left.now right.now settings.now)
        One entries.now.items) }
    ensures two { IfOk result (λ done. done.made.two.items
        ≡ moves_of (tapes_of left.now right.now) (machine_at_start left.now right.now settings.now)
        Two entries.now.items) }
    ensures machine { IfOk result (λ done. done.machine.machine
        ≡ fold (tapes_of left.now right.now) (machine_at_start left.now right.now settings.now) entries.now.items) }
{
    histories_are_runs();
    let mut machine = Machine::new(alloc, left, right, settings)?;
    machine.reserve(entries.len())?;
    let mut made = no_moves(alloc);
    for index in 0..entries.len() {
        let entry = entries.get(index);
        let turn = done_again(&mut machine, left, right, &entry);
        add_turn_of(&mut made, entry.path, &turn)?;
    }
    Ok(DoneAgain { made, machine })
}
