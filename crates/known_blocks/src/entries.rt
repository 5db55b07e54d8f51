//! Whether a path may come to a block otherwise than from the block before it.
ghost use Rattle.std.specs.Prelude.{◌≡◌, ◌||◌, ℕ, List, Some};
ghost use Rattle.block_order.specs.declared.program.ControlProgram.{ControlProgram};
ghost use Rattle.known_blocks.specs.Entries.{is_jumped_to, is_head, is_left_otherwise, is_left, is_entered, AreJumpsOf, AreReturnsOf};

use crate::aims::Aims;
use block_order::{Control, ControlBlock};

/// Whether a path may come to the block from the end of a loop.
fn is_head(control: &Control) -> bool
    ensures { result ≡ is_head control.now }
{
    matches!(control, Control::While(_) | Control::Do(_))
}

/// Whether a path comes behind the block otherwise than from it: behind a loop, or back from a
/// call.
fn is_left_otherwise(control: &Control) -> bool
    ensures { result ≡ is_left_otherwise control.now }
{
    matches!(control, Control::EndLoop(_) | Control::Call { .. })
}

/// Whether a path may be led to the sequence number of a block, if it has one, by these jumps of
/// its program and these returns of its tape.
fn is_jumped_to(jumps: &Aims, returns: &Aims, sequence: Option<u32>) -> bool
    ensures { (tape : List ControlProgram) (program : ℕ) → AreJumpsOf tape program jumps.now
        → AreReturnsOf tape returns.now → result ≡ is_jumped_to tape program sequence }
{
    match sequence {
        Some(number) => jumps.has(number) || returns.has(number),
        None => false,
    }
}

/// Whether a path may come to the block from elsewhere, by these jumps of its program and these
/// returns of its tape.
pub fn is_entered(jumps: &Aims, returns: &Aims, block: &ControlBlock) -> bool
    ensures { (tape : List ControlProgram) (program : ℕ) → AreJumpsOf tape program jumps.now
        → AreReturnsOf tape returns.now → result ≡ is_entered tape program (Some block.now) }
{
    is_head(&block.control) || is_jumped_to(jumps, returns, block.sequence)
}

/// Whether a path comes behind the block otherwise than from it.
pub fn is_left(block: &ControlBlock) -> bool
    ensures { result ≡ is_left (Some block.now) }
{
    is_left_otherwise(&block.control)
}
