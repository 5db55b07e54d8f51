//! One step of the walk over a history that is known to be legal: the next record is done again, and
//! can't be refused.
ghost use Rattle.std.specs.Prelude.{◌≡◌, ◌≤◌, ◌<◌, ◌+◌};
ghost use Rattle.nc_number.specs.declared.limits.TheConstants.{MOST_RECORDS};
ghost use Rattle.motion_track.specs.Within.{AreMovesWithin};
ghost use Rattle.two_path.specs.Machine.{without_reads};
ghost use Rattle.two_path.specs.Turns.{tapes_of};
ghost use Rattle.two_path.specs.Histories.{IsNext};
ghost use Rattle.two_path.specs.Joined.{AreAtTheirWaits};
ghost use Rattle.two_path.specs.Again.{IsDoneAgain};
ghost use Rattle.two_path.specs.Made.{moves_of_turn};

use crate::machine::Machine;
use crate::turn::Turn;
use motion_track::LONGEST;
use run_records::Entry;
use tape_flow::Flow;

/// Does a record again that is legal behind the machine, and answers what its turn answered. It
/// takes no memory.
///
/// It asks for what [`apply`](Machine::apply) asks for. Its moves are as far as those of a turn.
pub fn done_again(machine: &mut Machine, left: &Flow, right: &Flow, entry: &Entry) -> Turn
    requires legal { IsNext (tapes_of left.now right.now) machine.old.machine entry.now }
    requires room { 0 < machine.old.room }
    requires few { machine.old.machine.count ≤ MOST_RECORDS }
    requires no_reads { without_reads machine.old.machine ≡ machine.old.machine }
    requires waits { AreAtTheirWaits left.now.order right.now.order machine.old.machine }
    ensures done { IsDoneAgain (tapes_of left.now right.now) entry.now machine.old.machine machine.new.machine result }
    ensures room { machine.old.machine.count + machine.old.room ≤ machine.new.machine.count + machine.new.room }
    ensures no_reads { without_reads machine.new.machine ≡ machine.new.machine }
    ensures waits { AreAtTheirWaits left.now.order right.now.order machine.new.machine }
    ensures moves { AreMovesWithin LONGEST (moves_of_turn result) }
{
    machine.apply(left, right, entry).unwrap()
}
