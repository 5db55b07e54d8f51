//! The first fault in how programs and loops fit together: 60 or 52. Which faults there are is in
//! specs/Faults.antt. draft.rt calls `fitting_fault`.
ghost use Rattle.std.specs.Prelude.{◌≤◌, length, IfOk};
ghost use Rattle.nc_number.specs.declared.limits.TheConstants.{MOST_BLOCKS};
ghost use Rattle.block_order.specs.Faults.{Fitting};
ghost use Rattle.block_order.specs.First.{IsFirstOf, IsMismatchLine};
ghost use Rattle.block_order.specs.Shape.{IsReadTape};

use crate::fault::OrderFault;
use crate::mismatch::first_mismatch;
use crate::program::ControlProgram;
use indexmap::IndexSet;
use nc_number::{Cause, NoMemory};
use std::alloc::Global;

/// The first fault of a tape in how its programs and loops fit together: an O number given before,
/// 60, or heads and ends of loops that don't fit, 52.
pub(crate) fn fitting_fault(
    alloc: Global,
    tape: &[ControlProgram],
) -> Result<Option<OrderFault>, NoMemory>
    requires { IsReadTape tape.now }
    ensures { IfOk result (λ fault. IsFirstOf tape.now Fitting fault) }
{
    let mut numbers: IndexSet<u16> = IndexSet::new(alloc);
    for program in tape {
        if !numbers.insert(program.number)? {
            return Ok(Some(OrderFault {
                cause: Cause::ProgramTwice,
                line: program.line,
            }));
        }
        if let Some(line) = mismatch_line(alloc, program)? {
            return Ok(Some(OrderFault {
                cause: Cause::LoopMismatch,
                line,
            }));
        }
    }
    Ok(None)
}

/// The line of the program's first block that does not fit.
fn mismatch_line(alloc: Global, program: &ControlProgram) -> Result<Option<u32>, NoMemory>
    requires { length program.now.blocks ≤ MOST_BLOCKS }
    ensures { IfOk result (λ line. IsMismatchLine program.now.blocks line) }
{
    let blocks = program.blocks.as_slice();
    let Some(place) = first_mismatch(alloc, blocks)? else {
        return Ok(None);
    };
    Ok(Some(blocks[place as usize].line))
}
