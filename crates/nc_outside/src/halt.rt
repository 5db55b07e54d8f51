//! Why a run stops early, and what a step of a path answers.
ghost use Rattle.std.specs.Prelude.{◌≡◌};

use nc_moves::{Alarm, Moves};
use nc_number::Path;

/// Why a run stops before both paths have finished.
#[derive(Clone, Copy, Debug, PartialEq, Eq)]
pub enum Halt {
    /// A path raised an alarm, which stops both.
    Alarm(Alarm),
    /// The disk failed.
    Disk,
    /// The turret of this path failed.
    Turret(Path),
    /// The run has as many records as the settings allow.
    Full,
    /// The call has made as many records as it was allowed.
    Budget,
}

/// What one step of a path answers.
#[derive(Debug, Drop)]
pub enum Next {
    /// Nothing for the turret to do.
    Silent,
    /// The moves of a block, for the turret.
    Moves(Moves),
    /// The path comes to the wait of this code, and goes on once its turret has made what was
    /// answered before and stands still.
    Drain(u16),
    /// The path has ended.
    Finished,
    /// The run has stopped.
    Halted(Halt),
}

impl Next {
    /// A second value of this answer.
    pub fn copy(&self) -> Next
        ensures { result ≡ self.now }
    {
        match self {
            Next::Silent => Next::Silent,
            Next::Moves(moves) => Next::Moves(moves.copy()),
            Next::Drain(code) => Next::Drain(*code),
            Next::Finished => Next::Finished,
            Next::Halted(why) => Next::Halted(*why),
        }
    }
}
