//! The order in which the tests give turns of a table. It depends on the history alone: the path
//! with fewer records has the next turn, and if it waits or has ended, the other one. So a run and
//! the rest of it after a restart give the same turns.
//! run.rt uses it.
use crate::record_text::records_of;
use disk_model::Disk;
use nc_number::Path;
use run_records::EntryList;
use run_table::{Table, TableStep};
use two_path::Turn;

/// How many records each path has made.
#[derive(Clone, Copy)]
pub(crate) struct Count {
    /// How many path 1 has made.
    one: usize,
    /// How many path 2 has made.
    two: usize,
}

/// What a step came to, as far as the order of turns needs it.
#[derive(Drop)]
enum Said {
    /// A read of a block.
    Read,
    /// A record.
    Record,
    /// The path waits, or has ended.
    Idle,
    /// The run has stopped.
    Stopped,
}

/// What this answer of a table was.
fn said_of(answer: &TableStep) -> Said {
    match answer {
        TableStep::Drain(_) | TableStep::Undrained => Said::Stopped,
        TableStep::DiskFault | TableStep::Halted(_) => Said::Stopped,
        TableStep::Turned(turn) => said_of_turn(turn),
    }
}

/// What this turn was.
fn said_of_turn(turn: &Turn) -> Said {
    match turn {
        Turn::Read { .. } => Said::Read,
        Turn::Did { .. } | Turn::Arrived { .. } | Turn::Met { .. } | Turn::Ended { .. } => {
            Said::Record
        }
        Turn::Alarm { .. } | Turn::Edited => Said::Record,
        Turn::Waiting { .. } | Turn::Finished | Turn::Halted { .. } => Said::Idle,
    }
}

impl Count {
    /// The counts of a history.
    pub(crate) fn of(entries: &EntryList) -> Count {
        Count {
            one: records_of(entries, Path::One),
            two: records_of(entries, Path::Two),
        }
    }

    /// The path whose turn it is.
    fn next(&self) -> Path {
        if self.one <= self.two {
            Path::One
        } else {
            Path::Two
        }
    }

    /// Counts one record more of the path.
    fn add(&mut self, path: Path) {
        match path {
            Path::One => self.one = self.one.saturating_add(1),
            Path::Two => self.two = self.two.saturating_add(1),
        }
    }

    /// Whether the run goes on after such a step of the path, whose record is counted.
    fn goes_on(&mut self, path: Path, said: &Said) -> bool {
        match said {
            Said::Read => true,
            Said::Record => {
                self.add(path);
                true
            }
            Said::Idle | Said::Stopped => false,
        }
    }
}

/// Makes a step of a path. If it is to be drained first it is told so: there is no turret.
pub(crate) fn step_drained<D: Disk>(table: &mut Table<D>, path: Path) -> TableStep {
    let answer = table.step(path);
    if let TableStep::Drain(_) = &answer {
        table.drained(path);
        return table.step(path);
    }
    answer
}

/// What a step of a path came to.
fn step_of<D: Disk>(table: &mut Table<D>, path: Path) -> Said {
    said_of(&step_drained(table, path))
}

/// Makes one step of the table. It answers whether the run goes on.
fn step<D: Disk>(table: &mut Table<D>, count: &mut Count) -> bool {
    let path = count.next();
    let said = step_of(table, path);
    if let Said::Idle = said {
        let said = step_of(table, path.other());
        return count.goes_on(path.other(), &said);
    }
    count.goes_on(path, &said)
}

/// Makes steps of the table until it stops, or both paths have ended.
pub(crate) fn step_on<D: Disk>(table: &mut Table<D>, from: Count) -> Count {
    let mut count = from;
    for _ in 0..1_000u32 {
        if !step(table, &mut count) {
            break;
        }
    }
    count
}
