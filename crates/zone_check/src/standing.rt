//! What is kept while records are done again: the zones of the segments that have ended, and what
//! each path has swept since the last meeting.
//! For meetings.rt of this crate.
ghost use Rattle.std.specs.Prelude.{◌≡◌, [], ◌∷◌, ◌++◌, IfOk, OnOk};
ghost use Rattle.nc_number.specs.declared.path.Path.TheVariants as Path;
ghost use Rattle.motion_track.specs.Within.{AreMovesWithin};
ghost use Rattle.two_path.specs.Made.{moves_of_turn};
ghost use Rattle.zone_area.specs.Area.{swept_along};
ghost use Rattle.zone_check.specs.Kept.{standing_at, standing_with, standing_zone, kept_with};

use motion_track::LONGEST;
use nc_number::{Both, NoMemory, Path};
use run_records::Entry;
use std::alloc::Global;
use std::marker::Model;
use two_path::{Machine, Turn};
use zone_area::Swept;
use zone_cell::{Zone, Zones};

/// The zones of the segments that have ended, and what is kept of the one that goes on.
#[derive(Debug, Drop)]
pub(crate) struct Kept {
    /// The zones of the segments that have ended.
    list: Vec<Zone>,
    /// What each path may have passed since they last met, and where it stands.
    standing: Both<Swept>,
}

impl Model for Kept {
    ghost use Rattle.zone_check.specs.Kept;

    ghost Value = { Kept.KeptView };

    ghost view = { λ k. record { list = k.list.items; standing = k.standing } };
}

/// Adds the moves of a turn.
fn add_turn(swept: &mut Swept, turn: &Turn)
    requires { AreMovesWithin LONGEST (moves_of_turn turn.now) }
    ensures { swept.new ≡ swept_along swept.old (moves_of_turn turn.now) }
{
    match turn {
        Turn::Did { moves } => swept.add_all(moves.list.as_slice()),
        Turn::Ended { moves } => swept.add_all(moves.list.as_slice()),
        _ => {}
    }
}

/// Where the paths of the machine stand, before their next moves.
fn standing_at(machine: &Machine) -> Both<Swept>
    ensures { result ≡ standing_at machine.now.machine }
{
    Both {
        one: Swept::from(machine.path(Path::One).position()),
        two: Swept::from(machine.path(Path::Two).position()),
    }
}

/// Adds a turn of this path.
fn add_turn_of(standing: &mut Both<Swept>, path: Path, turn: &Turn)
    requires { AreMovesWithin LONGEST (moves_of_turn turn.now) }
    ensures { standing.new ≡ standing_with standing.old path turn.now }
{
    match path {
        Path::One => add_turn(&mut standing.one, turn),
        Path::Two => add_turn(&mut standing.two, turn),
    }
}

/// The zone of the segment that goes on, so far.
fn standing_zone(zones: &Zones, standing: &Both<Swept>) -> Zone
    ensures { result ≡ standing_zone zones.now standing.now }
{
    zones.zone(&Both {
        one: standing.one.area(),
        two: standing.two.area(),
    })
}

impl Kept {
    /// Before the first record of a history, at the machine that it begins with.
    pub(crate) fn at(alloc: Global, machine: &Machine) -> Kept
        ensures list { result.list ≡ [] }
        ensures standing { result.standing ≡ standing_at machine.now.machine }
    {
        Kept {
            list: Vec::new(alloc),
            standing: standing_at(machine),
        }
    }

    /// Takes a record, which led to this machine by this turn.
    pub(crate) fn take(
        &mut self,
        zones: &Zones,
        entry: &Entry,
        turn: &Turn,
        machine: &Machine,
    ) -> Result<(), NoMemory>
        requires { AreMovesWithin LONGEST (moves_of_turn turn.now) }
        ensures { OnOk result (self.new ≡ kept_with zones.now entry.now turn.now machine.now.machine self.old) }
    {
        if entry.kind.is_meeting() {
            self.list.push(standing_zone(zones, &self.standing))?;
            self.standing = standing_at(machine);
            return Ok(());
        }
        add_turn_of(&mut self.standing, entry.path, turn);
        Ok(())
    }

    /// All zones, at the end of the history.
    pub(crate) fn into_list(self, zones: &Zones) -> Result<Vec<Zone>, NoMemory>
        ensures { IfOk result (λ v. v.items ≡ self.list ++ standing_zone zones.now self.standing ∷ []) }
    {
        let Kept { mut list, standing } = self;
        list.push(standing_zone(zones, &standing))?;
        Ok(list)
    }
}
