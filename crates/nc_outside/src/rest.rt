//! At what a turret is told to rest.

/// Where a path stands when its turret is to have made all that it got, and to stand still.
#[derive(Clone, Copy, Debug, PartialEq, Eq)]
pub enum Rest {
    /// At the turret's place, before its first move.
    Place,
    /// At a wait, before the path comes to it: the code of the wait.
    Wait(u16),
    /// At the end of the path, or of the run if that stopped before.
    End,
}
