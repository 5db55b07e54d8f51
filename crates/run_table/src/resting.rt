//! Whether the turret of a path rests for a wait.

/// Whether the turret of a path rests for the wait that the path comes to.
#[derive(Clone, Copy, Debug, PartialEq, Eq)]
pub enum Resting {
    /// It was not told to rest for a wait that has not come.
    Unasked,
    /// It was told to rest before the wait of this code, and it is not known that it does.
    Asked(u16),
    /// It rests for the wait of this code.
    Rests(u16),
}
