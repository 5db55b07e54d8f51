//! The flow of a tape: the blocks of a checked tape and their order; and `compile`, which makes it
//! or answers the tape's refusal. What a flow lends of its places is in lending.rt.
ghost use Rattle.std.specs.Prelude.{◌≡◌, map, IfOk, IfErr};
ghost use Rattle.block_order.specs.Answers.{IfFault};
ghost use Rattle.tape_flow.specs.Forms.{program_form};
ghost use Rattle.tape_flow.specs.Controls.{controls};
ghost use Rattle.tape_flow.specs.Exact.{dialect_of, IsAccepted, IsRefused};

use crate::fault::FlowFault;
use crate::ordering::order_of;
use crate::program::FlowProgramList;
use crate::reading::read_tape;
use block_order::BlockOrder;
use cell_settings::Settings;
use nc_number::Failing;
use nc_text::Tape;
use std::alloc::Global;

/// A tape that is not refused: its programs, each block with what it says, and the order in which
/// the blocks run.
#[derive(Drop)]
pub struct Flow {
    /// The programs, with what their blocks say.
    pub programs: FlowProgramList,
    /// The order of the same blocks.
    pub order: BlockOrder,
    ghost agrees: { order ≡ controls (map program_form programs) },
}

/// The flow of a tape, or its one refusal.
///
/// The tape is refused where one of its blocks is: by 5, 20 to 25, 54, 56 to 59, 61, 62 or 64; else
/// by 60 of an O number given twice and 52 of loops that don't fit together; else by 50, 51 and 53
/// of jumps and calls that don't find what they name; else by 65 of a jump that may pass a wait,
/// and 66 of a wait that a ninth call leads to. Each time the least line is named, and on it the
/// least number.
pub fn compile(alloc: Global, tape: &Tape, settings: &Settings) -> Result<Flow, Failing<FlowFault>>
    ensures accepted { IfOk result
        (λ flow. IsAccepted (dialect_of settings.now) tape.now (map program_form flow.programs)) }
    ensures refused { IfErr result (λ error. IfFault error
        (λ fault. IsRefused (dialect_of settings.now) tape.now fault.line fault.number)) }
{
    let tape = tape.as_slice();
    let programs = match read_tape(alloc, tape, settings) {
        Ok(programs) => programs,
        Err(fault) => return Err(fault),
    };
    match order_of(alloc, programs.as_slice()) {
        Ok(order) => Ok(Flow { programs, order }),
        Err(fault) => Err(fault),
    }
}
