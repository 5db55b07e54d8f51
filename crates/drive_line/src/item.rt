//! What goes along a drive line, from the worker of a path to the drive of its turret. The drive
//! does one thing for each kind of item.
use nc_outside::LinedMove;

/// What the worker of a path sends to the drive of its turret.
#[derive(Clone, Copy, Debug, PartialEq, Eq)]
pub enum Item {
    /// A move for the turret.
    Move(LinedMove),
    /// The path comes to the wait of this code. The drive is to answer how many moves it has taken,
    /// once its turret stands still behind them.
    Mark(u16),
    /// The path has ended: its turret is to stand still behind all moves.
    Finish,
    /// The end of what is sent: nothing comes behind it.
    End,
}
