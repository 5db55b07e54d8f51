//! Whether a variable can have a race at all: one tape has a block that may write it, and the other
//! one that names it, in whatever parts.
//! racing.rt asks this before it looks through the parts.
ghost use Rattle.std.specs.Prelude.{◌≡◌};
ghost use Rattle.race_report.specs.Meeting.{some_block, some_program, may_meet, may_race};

use crate::naming::does;
use crate::sought::Sought;
use block_forms::FlowBlock;
use tape_flow::{Flow, FlowProgram};

/// Whether one of the blocks does what is looked for.
fn some_block(sought: Sought, variable: u32, blocks: &[FlowBlock]) -> bool
    ensures { result ≡ some_block sought variable blocks.now }
{
    for block in blocks {
        if does(sought, variable, block) {
            return true;
        }
    }
    false
}

/// Whether a block of one of the programs does what is looked for.
fn some_program(sought: Sought, variable: u32, programs: &[FlowProgram]) -> bool
    ensures { result ≡ some_program sought variable programs.now }
{
    for program in programs {
        if some_block(sought, variable, program.blocks.as_slice()) {
            return true;
        }
    }
    false
}

/// Whether the tape of the one path has a block that may write the variable, and that of the other
/// path one that names it.
fn may_meet(variable: u32, writer: &Flow, other: &Flow) -> bool
    ensures { result ≡ may_meet variable writer.now other.now }
{
    some_program(Sought::Writes, variable, writer.programs.as_slice())
        && some_program(Sought::Names, variable, other.programs.as_slice())
}

/// Whether the variable can have a race, whichever path writes. This is far cheaper to tell than
/// whether it has one, and in which parts.
pub(crate) fn may_race(variable: u32, left: &Flow, right: &Flow) -> bool
    ensures { result ≡ may_race variable left.now right.now }
{
    may_meet(variable, left, right) || may_meet(variable, right, left)
}
