//! Why a run ended, and which of several causes is told.
ghost use Rattle.std.specs.Prelude.{◌≡◌};
ghost use Rattle.nc_outside.specs.Reasons.{end_or_bound, first_cause, reason_of};

use crate::Halt;
use nc_moves::Alarm;
use nc_number::Path;

/// Why a run ended. Of several causes it is the first of these: a fault of the disk, a fault of a
/// turret, that of path 1 before that of path 2, an alarm, the ends of both paths, as many records
/// as the settings allow, as many as the call was allowed.
#[derive(Clone, Copy, Debug, PartialEq, Eq)]
pub enum Reason {
    /// Both paths have finished.
    Done,
    /// A path raised an alarm, which stopped both.
    Alarm(Alarm),
    /// The call made as many records as it was allowed, or its order of turns is over.
    Stopped,
    /// The run has as many records as the settings allow.
    Full,
    /// The disk failed.
    DiskFault,
    /// The turret of this path failed.
    TurretFault(Path),
}

impl Reason {
    /// The reason of a run that this halt ended.
    pub fn of(halt: Halt) -> Reason
        ensures { result ≡ reason_of halt }
    {
        match halt {
            Halt::Alarm(alarm) => Reason::Alarm(alarm),
            Halt::Disk => Reason::DiskFault,
            Halt::Turret(path) => Reason::TurretFault(path),
            Halt::Full => Reason::Full,
            Halt::Budget => Reason::Stopped,
        }
    }

    /// The reason of a run that its machine ended, or else a bound of its records; none if neither
    /// did.
    pub fn of_end(end: Option<Reason>, bound: Option<Halt>) -> Option<Reason>
        ensures { result ≡ end_or_bound end bound }
    {
        match (end, bound) {
            (Some(end), _) => Some(end),
            (None, Some(bound)) => Some(Reason::of(bound)),
            (None, None) => None,
        }
    }

    /// The first of the causes: a fault of the disk, the failed turret of this path, or this end.
    pub fn of_causes(end: Option<Reason>, turret: Option<Path>) -> Option<Reason>
        ensures { result ≡ first_cause end turret }
    {
        match (turret, end) {
            (None, _) | (_, Some(Reason::DiskFault)) => end,
            (Some(path), _) => Some(Reason::TurretFault(path)),
        }
    }
}
