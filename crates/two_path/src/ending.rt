//! Why the run of a machine has ended: by an alarm, or by the ends of both paths. Other causes are
//! the table's.
ghost use Rattle.std.specs.Prelude.{◌≡◌};
ghost use Rattle.two_path.specs.Ending.{end_of};

use crate::Machine;
use nc_number::Path;
use nc_outside::Reason;

impl Machine {
    /// Why its run has ended, if it has: an alarm has stopped both paths, or else both have ended.
    pub fn end(&self) -> Option<Reason>
        ensures { result ≡ end_of self.now.machine }
    {
        if let Some(alarm) = self.alarm() {
            return Some(Reason::Alarm(alarm));
        }
        if self.finished(Path::One) && self.finished(Path::Two) {
            Some(Reason::Done)
        } else {
            None
        }
    }
}
