//! Whether a run is over, and why its machine stands where it does. showing.rt uses it for the
//! report.
ghost use Rattle.std.specs.Prelude.{◌≡◌};
ghost use Rattle.lathe_looks.specs.Standing.{are_finished, is_over, reason_of};

use nc_number::Path;
use nc_outside::Reason;
use two_path::Machine;

/// Whether both paths have ended.
fn are_finished(machine: &Machine) -> bool
    ensures { result ≡ are_finished machine.now.machine }
{
    machine.finished(Path::One) && machine.finished(Path::Two)
}

/// Whether the run is over: there is an alarm, or both paths have ended.
pub fn is_over(machine: &Machine) -> bool
    ensures { result ≡ is_over machine.now.machine }
{
    machine.alarm().is_some() || are_finished(machine)
}

/// Why the machine stands where it does, if nothing but its own records stopped it: an alarm, the
/// ends of both paths, or a stop before.
pub fn reason_of(machine: &Machine) -> Reason
    ensures { result ≡ reason_of machine.now.machine }
{
    match machine.end() {
        Some(end) => end,
        None => Reason::Stopped,
    }
}
