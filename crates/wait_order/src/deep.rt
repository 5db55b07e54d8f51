//! The first call that is the ninth of a chain of calls of loud programs (a loud program has a wait
//! or an end, or calls one that has). Which programs eight calls reach: depth.rt. waiting.rt calls
//! `deep_line` for the fault 66.
ghost use Rattle.std.specs.Prelude.{◌↔◌, ℕ, IsTrue, List};
ghost use Rattle.wait_order.specs.Deep.{IsCallLine, IsReachedLine, IsDeepLine};
ghost use Rattle.wait_order.specs.Depth.{IsLoudCall, AreReached};
ghost use Rattle.block_order.specs.Heard.{AreFlagsOf};
ghost use Rattle.wait_order.specs.TapeFaults.{AreProgramsOf};
ghost use Rattle.wait_order.specs.Waiting.{HasRisingLines, IsLeast};
ghost use Rattle.block_order.specs.declared.program.ControlProgram.{ControlProgram};

use block_order::{Control, ControlBlock, ControlProgram, LoudPrograms};
use nc_number::lesser;

/// Whether the control is a call of a loud program.
fn is_loud_call(loud: &LoudPrograms, control: &Control) -> bool
    ensures { (tape : List ControlProgram) → AreFlagsOf tape loud.now
        → IsTrue result ↔ ((q : ℕ) × IsLoudCall tape control.now q) }
{
    match control {
        Control::Call {
            program,
            repeats: _,
        } => loud.is_loud(*program),
        _ => false,
    }
}

/// The line of the first of these blocks that calls a loud program, if one does.
fn first_call_line(loud: &LoudPrograms, blocks: &[ControlBlock]) -> Option<u32>
    ensures { (tape : List ControlProgram) → AreFlagsOf tape loud.now → HasRisingLines blocks.now
        → IsLeast (IsCallLine tape blocks.now) result }
{
    for block in blocks {
        if is_loud_call(loud, &block.control) {
            return Some(block.line);
        }
    }
    None
}

/// The line of the first call of a loud program in this one, if it is flagged as reached.
fn reached_line(loud: &LoudPrograms, reached: &[bool], program: &ControlProgram) -> Option<u32>
    ensures { (tape : List ControlProgram) → AreFlagsOf tape loud.now → HasRisingLines program.now.blocks
        → IsLeast (IsReachedLine tape reached.now program.now) result }
{
    if loud.flag_of(reached, program.number) {
        first_call_line(loud, program.blocks.as_slice())
    } else {
        None
    }
}

/// The line of the first ninth call of a chain, if there is one. `reached` flags the programs that
/// eight calls reach.
pub(crate) fn deep_line(
    programs: &[ControlProgram],
    loud: &LoudPrograms,
    reached: &[bool],
) -> Option<u32>
    requires known { AreFlagsOf programs.now loud.now }
    requires own { AreProgramsOf programs.now }
    requires reached { AreReached programs.now 8 reached.now }
    ensures { IsLeast (IsDeepLine programs.now) result }
{
    let mut first = None;
    for program in programs {
        let line = reached_line(loud, reached, program);
        first = lesser(first, line);
    }
    first
}
