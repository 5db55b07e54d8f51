//! What a step of a table answers, and what is left of a table that is taken apart. `StepAnswer` is
//! the form that table.rt fills.
ghost use Rattle.std.specs.Prelude.{◌≡◌};
ghost use Rattle.run_table.specs.Apart.{step_with};

use disk_model::Disk;
use nc_moves::MoveList;
use nc_outside::Halt;
use nc_verify::Verified;
use run_records::EntryList;
use two_path::{Machine, Turn, TurnAnswer};

/// What one step of a table came to.
#[derive(Debug, Drop)]
pub enum TableStep {
    /// A turn of the path. What it shows is on the disk.
    Turned(Turn),
    /// The path comes to the wait of this code, and its turret is to rest before. There was no turn.
    Drain(u16),
    /// The path's turret was told to rest before a wait, and it is not known that it does. There was
    /// no turn.
    Undrained,
    /// The disk failed. What the path did is not shown.
    DiskFault,
    /// The run has stopped, or must stop here. There was no turn.
    Halted(Halt),
}

/// What one step of a table came to. Its moves are not in it, but in a list that the caller lends.
#[derive(Debug, Drop)]
pub enum StepAnswer {
    /// A turn of the path. What it shows is on the disk.
    Turned(TurnAnswer),
    /// The path comes to the wait of this code, and its turret is to rest before. There was no turn.
    Drain(u16),
    /// The path's turret was told to rest before a wait, and it is not known that it does. There was
    /// no turn.
    Undrained,
    /// The disk failed. What the path did is not shown.
    DiskFault,
    /// The run has stopped, or must stop here. There was no turn.
    Halted(Halt),
}

impl TableStep {
    /// The answer and the moves of a step in one value. The moves are dropped if the step is no
    /// turn that has some.
    pub(crate) fn of(answer: StepAnswer, moves: MoveList) -> TableStep
        ensures { result ≡ step_with answer moves }
    {
        match answer {
            StepAnswer::Turned(answer) => TableStep::Turned(Turn::of(answer, moves)),
            StepAnswer::Drain(code) => TableStep::Drain(code),
            StepAnswer::Undrained => TableStep::Undrained,
            StepAnswer::DiskFault => TableStep::DiskFault,
            StepAnswer::Halted(why) => TableStep::Halted(why),
        }
    }
}

/// What is left of a table that is taken apart (`Table::into_parts`).
#[derive(Drop)]
pub struct Parts<D: Disk> {
    /// The accepted pair.
    pub verified: Verified,
    /// The machine after all records.
    pub machine: Machine,
    /// All records, also those that did not get to the disk.
    pub entries: EntryList,
    /// Why the table stopped, if it keeps a reason.
    pub halt: Option<Halt>,
    /// The disk with the journal.
    pub disk: D,
}
