//! The blocks of a tape, each read by itself, up to the first that is refused. What a block says,
//! and when it is refused, is in block_forms.
//! `compile` (flow.rt) calls `read_tape` before it asks for the order of the blocks.
ghost use Rattle.std.specs.Prelude.{◌≤◌, [], map};
ghost use Rattle.nc_number.specs.Answers.{Gives};
ghost use Rattle.nc_text.specs.Shape.{IsTapeShape};
ghost use Rattle.block_forms.specs.Blocks.{block_form};
ghost use Rattle.tape_flow.specs.Forms.{block_read, blocks_from, program_form, program_read, programs_from, programs_read};
ghost use Rattle.tape_flow.specs.Exact.{dialect_of};

use crate::fault::FlowFault;
use crate::program::{FlowBlockList, FlowProgram, FlowProgramList};
use block_forms::{Dialect, FlowBlock, read_block};
use cell_settings::Settings;
use nc_number::Failing;
use nc_text::{Block, Program};
use std::alloc::Global;

/// A block as it reads. Errors: its refusal at its line, or memory.
fn read_at_line(
    alloc: Global,
    block: &Block,
    dialect: &Dialect,
) -> Result<FlowBlock, Failing<FlowFault>>
    ensures { Gives block_form result (block_read dialect.now block.now) }
{
    match read_block(alloc, block, dialect) {
        Ok(read) => Ok(read),
        Err(Failing::Fault(fault)) => Err(Failing::Fault(FlowFault {
            number: fault.number,
            line: block.line,
        })),
        Err(Failing::NoMemory) => Err(Failing::NoMemory),
    }
}

/// The blocks of a program. Errors: the first refusal, since reading ends there, or memory.
fn read_blocks(
    alloc: Global,
    blocks: &[Block],
    dialect: &Dialect,
) -> Result<Vec<FlowBlock>, Failing<FlowFault>>
    ensures { Gives (λ read. map block_form read.items) result (blocks_from dialect.now [] blocks.now) }
{
    let mut read = Vec::with_capacity(alloc, blocks.len())?;
    for block in blocks {
        match read_at_line(alloc, block, dialect) {
            Ok(form) => read.push(form)?,
            Err(fault) => return Err(fault),
        }
    }
    Ok(read)
}

/// A program with its blocks read. Its O number has at most four digits, so it fits 16 bits.
/// Errors: its first refusal, or memory.
fn read_program(
    alloc: Global,
    program: &Program,
    dialect: &Dialect,
) -> Result<FlowProgram, Failing<FlowFault>>
    requires { program.now.number ≤ 9999 }
    ensures { Gives program_form result (program_read dialect.now program.now) }
{
    match read_blocks(alloc, program.blocks.as_slice(), dialect) {
        Ok(blocks) => Ok(FlowProgram {
            number: program.number as u16,
            line: program.line,
            blocks: FlowBlockList::of(blocks),
        }),
        Err(fault) => Err(fault),
    }
}

/// The programs in the order of the text, the main program first. Errors: the first refusal, or
/// memory.
fn read_programs(
    alloc: Global,
    programs: &[Program],
    dialect: &Dialect,
) -> Result<FlowProgramList, Failing<FlowFault>>
    requires { IsTapeShape programs.now }
    ensures { Gives (λ read. map program_form read) result (programs_from dialect.now [] programs.now) }
{
    let mut read = Vec::with_capacity(alloc, programs.len())?;
    for program in programs {
        match read_program(alloc, program, dialect) {
            Ok(form) => read.push(form)?,
            Err(fault) => return Err(fault),
        }
    }
    Ok(FlowProgramList::of(read))
}

/// The programs of a tape with each block read, or the first refusal of a block.
pub(crate) fn read_tape(
    alloc: Global,
    tape: &[Program],
    settings: &Settings,
) -> Result<FlowProgramList, Failing<FlowFault>>
    requires { IsTapeShape tape.now }
    ensures { Gives (λ read. map program_form read) result (programs_read (dialect_of settings.now) tape.now) }
{
    let dialect = Dialect::of(settings);
    read_programs(alloc, tape, &dialect)
}
