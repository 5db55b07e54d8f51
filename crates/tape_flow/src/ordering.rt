//! From the programs of a flow to the order of their blocks: each block's line, sequence number and
//! control are handed to the check in wait_order, whose fault is answered by its number.
//! `compile` (flow.rt) calls `order_of` once all blocks read.
ghost use Rattle.std.specs.Prelude.{◌≡◌, map, IfOk, IfErr};
ghost use Rattle.block_order.specs.Answers.{IfFault};
ghost use Rattle.block_order.specs.Faults.{IsSound};
ghost use Rattle.block_order.specs.Shape.{IsReadTape};
ghost use Rattle.tape_flow.specs.Forms.{program_form};
ghost use Rattle.tape_flow.specs.Controls.{control_block, control_program, controls};
ghost use Rattle.tape_flow.specs.Exact.{IsOrderFault};
ghost use Rattle.block_forms.specs.Blocks.{block_form};

use crate::fault::FlowFault;
use crate::program::FlowProgram;
use block_forms::FlowBlock;
use block_order::{BlockOrder, ControlBlock, ControlBlockList, ControlProgram};
use nc_number::{Failing, NoMemory};
use std::alloc::Global;
use wait_order::check_order;

/// A block as the check of the order takes it: its line, its sequence number and its control.
pub(crate) fn control_of(block: &FlowBlock) -> ControlBlock
    ensures { result ≡ control_block (block_form block.now) }
{
    ControlBlock {
        line: block.line,
        sequence: block.sequence,
        control: block.control,
    }
}

/// The controls of these blocks, in their order.
fn controls_of(alloc: Global, blocks: &[FlowBlock]) -> Result<Vec<ControlBlock>, NoMemory>
    ensures { IfOk result (λ controls. controls.items
        ≡ map (λ block. control_block (block_form block)) blocks.now) }
{
    let mut controls = Vec::with_capacity(alloc, blocks.len())?;
    for block in blocks {
        controls.push(control_of(block))?;
    }
    Ok(controls)
}

/// A program as the check of the order takes it.
fn ordered(alloc: Global, program: &FlowProgram) -> Result<ControlProgram, NoMemory>
    ensures { IfOk result (λ ordered. ordered ≡ control_program (program_form program.now)) }
{
    let blocks = controls_of(alloc, program.blocks.as_slice())?;
    Ok(ControlProgram {
        number: program.number,
        line: program.line,
        blocks: ControlBlockList::of(blocks),
    })
}

/// The programs as the check of the order takes them. The order keeps this list.
fn control_programs(
    alloc: Global,
    programs: &[FlowProgram],
) -> Result<Vec<ControlProgram>, NoMemory>
    ensures { IfOk result (λ made. made.items
        ≡ map (λ program. control_program (program_form program)) programs.now) }
{
    let mut controls = Vec::with_capacity(alloc, programs.len())?;
    for program in programs {
        controls.push(ordered(alloc, program)?)?;
    }
    Ok(controls)
}

/// The order of the blocks of all programs, or its first fault, or that memory ran out.
pub(crate) fn order_of(
    alloc: Global,
    programs: &[FlowProgram],
) -> Result<BlockOrder, Failing<FlowFault>>
    requires { IsReadTape (controls (map program_form programs.now)) }
    ensures same { IfOk result (λ order. order ≡ controls (map program_form programs.now)) }
    ensures sound { IfOk result (λ _. IsSound (controls (map program_form programs.now))) }
    ensures first { IfErr result (λ error. IfFault error
        (λ fault. IsOrderFault (controls (map program_form programs.now)) fault.line fault.number)) }
{
    let controls = control_programs(alloc, programs)?;
    match check_order(alloc, controls) {
        Ok(order) => Ok(order),
        Err(Failing::Fault(fault)) => Err(Failing::Fault(FlowFault {
            number: fault.cause.number(),
            line: fault.line,
        })),
        Err(Failing::NoMemory) => Err(Failing::NoMemory),
    }
}
