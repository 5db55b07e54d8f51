//! Why a run whose paths take turns ends: by its machine, or by the number of its records.
//! For turns.rt of this crate.
ghost use Rattle.std.specs.Prelude.{◌≡◌};
ghost use Rattle.turn_order.specs.Ending.{bound_by, end_before};

use nc_outside::{Halt, Reason};
use two_path::Machine;

/// What halts a run of so many records: `Full` if the settings allow no more than these, `Budget`
/// if only `limit` does, and nothing below the limit.
fn bound_by(count: u32, limit: u32, most: u32) -> Option<Halt>
    ensures { result ≡ bound_by count limit most }
{
    if count != limit {
        None
    } else if count == most {
        Some(Halt::Full)
    } else {
        Some(Halt::Budget)
    }
}

/// Why no further turn comes, if none does: by the machine, or else by the number of its records.
pub(crate) fn end_before(machine: &Machine, limit: u32, most: u32) -> Option<Reason>
    ensures { result ≡ end_before machine.now.machine limit most }
{
    Reason::of_end(machine.end(), bound_by(machine.count(), limit, most))
}
