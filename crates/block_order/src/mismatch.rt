//! The first block of a program that shows that its loops don't fit together. fitting.rt calls
//! `first_mismatch` for the fault 52.
ghost use Rattle.std.specs.Prelude.{◌≡◌, ◌≤◌, length, IfOk, OnOk};
ghost use Rattle.nc_number.specs.declared.limits.TheConstants.{MOST_BLOCKS};
ghost use Rattle.block_order.specs.Loops.{open_after_end, open_behind};
ghost use Rattle.block_order.specs.Misplaced.{open_loops, has_name, is_latest, is_misplaced, earliest, IsFirstMismatch};

use crate::control::Control;
use crate::program::ControlBlock;
use nc_number::{NoMemory, lesser};
use std::alloc::Global;

/// A loop that is open: the place of its head, and its name.
#[derive(Clone, Copy, Debug, PartialEq, Eq)]
struct OpenLoop {
    /// The place of its head.
    place: u32,
    /// 1, 2 or 3.
    name: u8,
}

/// The first block that does not fit: a head without its END, an END without its head, a head
/// inside a loop of its own name, or an END that closes a loop while a later one is open.
pub(crate) fn first_mismatch(
    alloc: Global,
    blocks: &[ControlBlock],
) -> Result<Option<u32>, NoMemory>
    requires { length blocks.now ≤ MOST_BLOCKS }
    ensures { IfOk result (λ first. IsFirstMismatch blocks.now first) }
{
    let mut stack: Vec<OpenLoop> = Vec::new(alloc);
    let mut misplaced: Option<u32> = None;
    let mut place: u32 = 0;
    for block in blocks {
        misplaced = misplaced.or(is_misplaced(stack.as_slice(), block.control).then_some(place));
        pass(&mut stack, block.control, place)?;
        place += 1;
    }
    Ok(lesser(misplaced, earliest(stack.as_slice())))
}

/// Whether a block of this control does not fit while these loops are open, the latest last.
fn is_misplaced(stack: &[OpenLoop], control: Control) -> bool
    ensures { result ≡ is_misplaced (open_loops stack.now) control }
{
    match control {
        Control::While(name) => has_name(stack, name),
        Control::Do(name) => has_name(stack, name),
        Control::EndLoop(name) => !is_latest(stack, name),
        _ => false,
    }
}

/// Whether an open loop has this name.
fn has_name(stack: &[OpenLoop], name: u8) -> bool
    ensures { result ≡ has_name name (open_loops stack.now) }
{
    stack.iter().any(|other| other.name == name)
}

/// Whether the latest open loop has this name.
fn is_latest(stack: &[OpenLoop], name: u8) -> bool
    ensures { result ≡ is_latest name (open_loops stack.now) }
{
    match stack.last() {
        Some(latest) => latest.name == name,
        None => false,
    }
}

/// Opens the loop of a head, or closes that of an END.
fn pass(stack: &mut Vec<OpenLoop>, control: Control, place: u32) -> Result<(), NoMemory>
    ensures { OnOk result (open_loops stack.new.items ≡ open_behind place control (open_loops stack.old.items)) }
{
    match control {
        Control::While(name) => stack.push(OpenLoop { place, name })?,
        Control::Do(name) => stack.push(OpenLoop { place, name })?,
        Control::EndLoop(name) => close(stack, name),
        _ => {}
    }
    Ok(())
}

/// Closes the latest open loop of this name.
fn close(stack: &mut Vec<OpenLoop>, name: u8)
    ensures { open_loops stack.new.items ≡ open_after_end name (open_loops stack.old.items) }
{
    let mut at = stack.len();
    while at > 0 {
        at -= 1;
        if stack[at].name == name {
            stack.remove(at);
            return;
        }
    }
}

/// The head of the loop that was opened first.
fn earliest(stack: &[OpenLoop]) -> Option<u32>
    ensures { result ≡ earliest (open_loops stack.now) }
{
    let head = stack.first()?;
    Some(head.place)
}
