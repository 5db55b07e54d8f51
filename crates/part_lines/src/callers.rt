//! Which programs call a quiet program, one that comes to no wait and no end, also not by its
//! calls. quiet.rt looks at the callers again when it found something of that program, and that
//! look decides. So what this table holds changes the time that quiet.rt takes, and not its answer.

use block_order::{BlockOrder, Callers, Control, ControlProgram};
use nc_number::NoMemory;
use std::alloc::Global;

/// Notes the calls of quiet programs in a program. The only error is that memory runs out.
fn note_calls(
    callers: &mut Callers,
    alloc: Global,
    order: &BlockOrder,
    caller: &ControlProgram,
) -> Result<(), NoMemory> {
    for block in caller.blocks.as_slice() {
        if let Control::Call {
            program,
            repeats: _,
        } = block.control
        {
            if !order.is_loud(program) {
                callers.note(alloc, program, caller.number)?;
            }
        }
    }
    Ok(())
}

/// Which programs call the quiet programs of a tape. The only error is that memory runs out.
pub(crate) fn quiet_callers(alloc: Global, order: &BlockOrder) -> Result<Callers, NoMemory> {
    let mut callers = Callers::new(alloc);
    for program in order.as_slice() {
        note_calls(&mut callers, alloc, order, program)?;
    }
    Ok(callers)
}
