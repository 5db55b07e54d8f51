//! How a turret stands: what its drive knows between two calls.

/// How a turret stands, as its drive knows it.
#[derive(Clone, Copy, Debug, PartialEq, Eq)]
pub enum Phase {
    /// Moves that it took may be on their way.
    Moving,
    /// It stands still behind all that it took.
    Still,
    /// It failed.
    Failed,
    /// It failed, and the run was halted for that.
    Halted,
}
