//! The stretches of a program. A stretch is the run of blocks up to a mark; a mark is a wait, an
//! end, an M99 without a number or a call that leads to a wait or an end. waiting.rt makes the list
//! of a program's stretches, searchers.rt counts marks.
ghost use Rattle.std.specs.Prelude.{◌≡◌, ◌≤◌, length, IfOk};
ghost use Rattle.block_order.specs.Loud.{mark_of};
ghost use Rattle.block_order.specs.Heard.{is_kept_loud};
ghost use Rattle.wait_order.specs.Stretches.{stretches_from};

use block_order::{Control, ControlBlock, LoudPrograms};
use nc_number::NoMemory;
use std::alloc::Global;

/// How many marks a block of this control is: 1 or 0.
pub(crate) fn mark_count(loud: &LoudPrograms, control: &Control) -> usize
    ensures is { result ≡ length (mark_of (is_kept_loud loud.now) control.now) }
    ensures few { result ≤ 1 }
{
    match control {
        Control::Wait(_) | Control::End | Control::Back => 1,
        Control::Call {
            program,
            repeats: _,
        } => { if loud.is_loud(*program) { 1 } else { 0 } }
        _ => 0,
    }
}

/// The stretch of each block of a program: how many marks stand before it. The only error is out of
/// memory.
pub(crate) fn stretches(
    alloc: Global,
    loud: &LoudPrograms,
    blocks: &[ControlBlock],
) -> Result<Vec<usize>, NoMemory>
    ensures { IfOk result (λ found. found.items ≡ stretches_from (is_kept_loud loud.now) 0 blocks.now) }
{
    let mut found = Vec::new(alloc);
    let mut marks = 0;
    for block in blocks {
        found.push(marks)?;
        marks += mark_count(loud, &block.control);
    }
    Ok(found)
}
