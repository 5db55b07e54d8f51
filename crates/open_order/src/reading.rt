//! The blocks of a tape, each read for its control alone, up to the first that is refused. What one
//! block does to the order is in open_forms.
//! ordering.rt calls `read_tape`; code.rt and trusting.rt take `Reading`.
ghost use Rattle.std.specs.Prelude.{◌≡◌, ◌≤◌, []};
ghost use Rattle.nc_number.specs.Answers.{Gives};
ghost use Rattle.nc_text.specs.Shape.{IsTapeShape};
ghost use Rattle.open_order.specs.Gone.{is_gone};
ghost use Rattle.open_order.specs.Basis.{basis};
ghost use Rattle.open_order.specs.Reading.{settled_control, block_read, blocks_from, program_read, programs_from, programs_read};

use crate::outside::is_gone;
use crate::premises::Premises;
use block_order::{Control, ControlBlock, ControlBlockList, ControlProgram};
use nc_number::Failing;
use nc_text::{Block, Program};
use open_forms::open_control;
use std::alloc::Global;
use tape_flow::FlowFault;

/// What the blocks of a tape are read over: the premises, and all programs of the tape.
#[derive(Clone, Copy)]
pub(crate) struct Reading<'a> {
    /// How a block is read, and which programs may be missing.
    pub(crate) premises: Premises,
    /// All programs of the tape.
    pub(crate) tape: &'a [Program],
}

/// The control of a block on its tape: a call of a program that the tape lacks goes on to the next
/// block.
fn settled(reading: &Reading<'_>, control: Control) -> Control
    ensures { result ≡ settled_control (is_gone reading.now.premises.outside reading.now.tape.now) control }
{
    match control {
        Control::Call { program, repeats } => {
            if is_gone(reading.premises.outside, reading.tape, program) {
                Control::Next
            } else {
                Control::Call { program, repeats }
            }
        }
        _ => control,
    }
}

/// A block as far as the order of blocks goes, or its refusal.
fn read_block(reading: &Reading<'_>, block: &Block) -> Result<ControlBlock, FlowFault>
    ensures { result ≡ block_read (basis reading.now) block.now }
{
    match open_control(block, &reading.premises.dialect) {
        Ok(control) => Ok(ControlBlock {
            line: block.line,
            sequence: block.sequence,
            control: settled(reading, control),
        }),
        Err(fault) => Err(FlowFault {
            number: fault.number,
            line: block.line,
        }),
    }
}

/// The blocks of a program, each read, or the first refusal.
fn read_blocks(
    alloc: Global,
    reading: &Reading<'_>,
    blocks: &[Block],
) -> Result<Vec<ControlBlock>, Failing<FlowFault>>
    ensures { Gives (λ read. read.items) result (blocks_from (basis reading.now) [] blocks.now) }
{
    let mut read = Vec::with_capacity(alloc, blocks.len())?;
    for block in blocks {
        match read_block(reading, block) {
            Ok(control) => read.push(control)?,
            Err(fault) => return Err(Failing::Fault(fault)),
        }
    }
    Ok(read)
}

/// A program with its blocks read, or the first refusal. Its O number has at most four digits.
fn read_program(
    alloc: Global,
    reading: &Reading<'_>,
    program: &Program,
) -> Result<ControlProgram, Failing<FlowFault>>
    requires { program.now.number ≤ 9999 }
    ensures { Gives (λ read. read) result (program_read (basis reading.now) program.now) }
{
    match read_blocks(alloc, reading, program.blocks.as_slice()) {
        Ok(blocks) => Ok(ControlProgram {
            number: program.number as u16,
            line: program.line,
            blocks: ControlBlockList::of(blocks),
        }),
        Err(error) => Err(error),
    }
}

/// The programs in the order of the text, the main program first, or the first refusal.
fn read_programs(
    alloc: Global,
    reading: &Reading<'_>,
) -> Result<Vec<ControlProgram>, Failing<FlowFault>>
    requires { IsTapeShape reading.now.tape.now }
    ensures { Gives (λ read. read.items) result (programs_from (basis reading.now) [] reading.now.tape.now) }
{
    let mut read = Vec::with_capacity(alloc, reading.tape.len())?;
    for program in reading.tape {
        match read_program(alloc, reading, program) {
            Ok(control) => read.push(control)?,
            Err(error) => return Err(error),
        }
    }
    Ok(read)
}

/// The programs of a tape with each block read, or the refusal of the first block that has one.
pub(crate) fn read_tape(
    alloc: Global,
    premises: Premises,
    tape: &[Program],
) -> Result<Vec<ControlProgram>, Failing<FlowFault>>
    requires { IsTapeShape tape.now }
    ensures { Gives (λ read. read.items) result (programs_read premises tape.now) }
{
    read_programs(alloc, &Reading { premises, tape })
}
