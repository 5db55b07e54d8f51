//! A turret that does nothing. The turret of the program is in turret_lines, over line_file.rt.
//! Only tests use it.
use nc_number::Point;
use nc_outside::{Failed, LinedMove, Rest, Turret};

/// A turret that takes every move and does nothing with it; what a run moves is told by its report.
/// It never fails, and tells nothing of what it got.
#[derive(Drop)]
pub struct LogTurret;

impl Turret for LogTurret {
    ghost use Rattle.real_outside.specs.Untold.{untold_turret};

    ghost state = { λ _. untold_turret };

    /// Always 0: it never fails.
    fn faults(&self) -> u64 {
        0
    }

    /// Does nothing.
    fn place(&mut self, _at: Point) -> Result<(), Failed> {
        Ok(())
    }

    /// Does nothing.
    fn hand(&mut self, _what: &LinedMove) -> Result<(), Failed> {
        Ok(())
    }

    /// Always stands still.
    fn settle(&mut self, _at: Rest) -> Result<(), Failed> {
        Ok(())
    }
}
