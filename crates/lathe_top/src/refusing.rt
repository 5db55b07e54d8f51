//! What is written if no journal was begun. The texts and statuses are in specs/Ran.antt
//! (`unbegun_answer`).
//! For beginning.rt of this crate.
ghost use Rattle.lathe_calls.specs.Answers.{Ends, IsJust};
ghost use Rattle.lathe_top.specs.Ran.{unbegun_answer};

use gate_file::GateFault;
use lathe_calls::{Status, write_text};
use nc_outside::Sink;

/// Writes why a journal was not begun, and gives the status of the cause.
pub(crate) fn tell_unbegun<K: Sink>(fault: GateFault, out: &mut K) -> u8
    ensures { Ends (IsJust (unbegun_answer fault)) (K.state out.old) (K.state out.new) result }
{
    match fault {
        GateFault::DiskFault => write_text(out, b"disk fault\n", Status::DiskFault as u8),
        GateFault::RunThere => write_text(out, b"run there\n", Status::RunOrNone as u8),
        // `NoRun` and `Cut` do not come of a beginning.
        GateFault::NoRun | GateFault::Cut(_) | GateFault::NoMemory => Status::NoMemory as u8,
    }
}
