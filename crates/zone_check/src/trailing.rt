//! What is kept while records are done again, move by move: what is hit in the segments that have
//! ended, and what each path has touched since the last meeting.
//! For judging.rt of this crate.
ghost use Rattle.std.specs.Prelude.{◌≡◌, [], ◌∷◌, ◌++◌, None, IfOk, OnOk};
ghost use Rattle.motion_track.specs.Within.{AreMovesWithin};
ghost use Rattle.nc_number.specs.Both.{of_path};
ghost use Rattle.nc_number.specs.declared.path.Path.TheVariants.{One, Two};
ghost use Rattle.two_path.specs.Made.{moves_made_in, moves_of_turn};
ghost use Rattle.zone_moves.specs.Stretches.{trail_at, trail_along};
ghost use Rattle.zone_check.specs.Laps.{tool_in_force, met_code};
ghost use Rattle.zone_check.specs.Trailed.{trails_at, trails_with, trails_finding, found_with};

use motion_track::LONGEST;
use nc_number::{Both, NoMemory, Path};
use run_records::Entry;
use std::alloc::Global;
use std::marker::Model;
use two_path::{Machine, Turn};
use zone_cell::Finding;
use zone_moves::{Cell, Trail, judge};

/// What is hit in the segments that have ended, and what is kept of the one that goes on.
#[derive(Debug, Drop)]
pub(crate) struct Found {
    /// What is hit in the segments that have ended.
    list: Vec<Finding>,
    /// The code of the last meeting.
    met: Option<u16>,
    /// What each path has touched since, where it stands, and its tool.
    trails: Both<Trail>,
}

impl Model for Found {
    ghost use Rattle.zone_check.specs.Trailed;

    ghost Value = { Trailed.FoundView };

    ghost view = { λ k. record { list = k.list.items; met = k.met; trails = k.trails } };
}

/// The code of a meeting, by the turn of its record.
fn met_code(turn: &Turn) -> Option<u16>
    ensures { result ≡ met_code turn.now }
{
    match turn {
        Turn::Met { code } => Some(*code),
        _ => None,
    }
}

/// The tool in force of a path: the first two digits of its last T word.
fn tool_in_force(machine: &Machine, path: Path) -> u16
    ensures { result ≡ tool_in_force (of_path machine.now.machine.paths path) }
{
    machine.path(path).modal().tool() / 100
}

/// A path where it stands in the machine, with its tool.
fn trail_of(alloc: Global, cell: &Cell, machine: &Machine, path: Path) -> Result<Trail, NoMemory>
    ensures { IfOk result (λ trail. trail ≡ trail_at cell.now path (tool_in_force (of_path machine.now.machine.paths path))
        (of_path machine.now.machine.paths path).path.position) }
{
    let tool = tool_in_force(machine, path);
    let trail = Trail::start(alloc, cell, path, tool, machine.path(path).position())?;
    Ok(trail)
}

/// Where the paths of the machine stand, before their next moves.
fn trails_at(alloc: Global, cell: &Cell, machine: &Machine) -> Result<Both<Trail>, NoMemory>
    ensures { IfOk result (λ trails. trails ≡ trails_at cell.now machine.now.machine) }
{
    let one = trail_of(alloc, cell, machine, Path::One)?;
    let two = trail_of(alloc, cell, machine, Path::Two)?;
    Ok(Both { one, two })
}

/// Adds the moves of a turn of a path.
fn add_turn(trail: &mut Trail, cell: &Cell, path: Path, turn: &Turn) -> Result<(), NoMemory>
    requires { AreMovesWithin LONGEST (moves_of_turn turn.now) }
    ensures { OnOk result (trail.new ≡ trail_along cell.now path trail.old (moves_made_in turn.now)) }
{
    match turn {
        Turn::Did { moves } => trail.add_block(cell, path, moves.line, moves.list.as_slice()),
        Turn::Ended { moves } => trail.add_block(cell, path, moves.line, moves.list.as_slice()),
        _ => Ok(()),
    }
}

/// Adds a turn of this path.
fn add_turn_of(
    trails: &mut Both<Trail>,
    cell: &Cell,
    path: Path,
    turn: &Turn,
) -> Result<(), NoMemory>
    requires { AreMovesWithin LONGEST (moves_of_turn turn.now) }
    ensures { OnOk result (trails.new ≡ trails_with cell.now trails.old path turn.now) }
{
    match path {
        Path::One => add_turn(&mut trails.one, cell, path, turn),
        Path::Two => add_turn(&mut trails.two, cell, path, turn),
    }
}

/// What is hit in the segment that goes on, so far.
fn trails_finding(
    alloc: Global,
    cell: &Cell,
    met: Option<u16>,
    trails: &Both<Trail>,
) -> Result<Finding, NoMemory>
    ensures { IfOk result (λ finding. finding ≡ trails_finding cell.now met trails.now) }
{
    let hit = judge(alloc, cell, &trails.one, &trails.two)?;
    Ok(Finding { met, hit })
}

impl Found {
    /// Before the first record of a history, at the machine that it begins with. The only error is
    /// out of memory.
    pub(crate) fn at(alloc: Global, cell: &Cell, machine: &Machine) -> Result<Found, NoMemory>
        ensures { IfOk result (λ k. k ≡ record { list = []; met = None; trails = trails_at cell.now machine.now.machine }) }
    {
        let trails = trails_at(alloc, cell, machine)?;
        Ok(Found {
            list: Vec::new(alloc),
            met: None,
            trails,
        })
    }

    /// Takes a record, which led to this machine by this turn.
    pub(crate) fn take(
        &mut self,
        alloc: Global,
        cell: &Cell,
        entry: &Entry,
        turn: &Turn,
        machine: &Machine,
    ) -> Result<(), NoMemory>
        requires { AreMovesWithin LONGEST (moves_of_turn turn.now) }
        ensures { OnOk result (self.new ≡ found_with cell.now entry.now turn.now machine.now.machine self.old) }
    {
        if entry.kind.is_meeting() {
            let finding = trails_finding(alloc, cell, self.met, &self.trails)?;
            self.list.push(finding)?;
            self.met = met_code(turn);
            self.trails = trails_at(alloc, cell, machine)?;
            return Ok(());
        }
        add_turn_of(&mut self.trails, cell, entry.path, turn)?;
        Ok(())
    }

    /// What is hit in each segment, at the end of the history.
    pub(crate) fn into_list(self, alloc: Global, cell: &Cell) -> Result<Vec<Finding>, NoMemory>
        ensures { IfOk result (λ v. v.items ≡ self.list ++ trails_finding cell.now self.met self.trails ∷ []) }
    {
        let Found {
            mut list,
            met,
            trails,
        } = self;
        let finding = trails_finding(alloc, cell, met, &trails)?;
        list.push(finding)?;
        Ok(list)
    }
}
