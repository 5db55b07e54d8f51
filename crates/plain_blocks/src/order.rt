//! The order of a tape's blocks, read for that alone, those of forms too.
ghost use Rattle.std.specs.Prelude.{◌≡◌, ◌≤◌, All, map, IfOk};
ghost use Rattle.plain_blocks.specs.Order.{plain_control, tape_control, order_block, order_program, order_tape, HasNumber};
ghost use Rattle.block_order.specs.declared.program.ControlBlock.{ControlBlock};

use block_forms::{Dialect, FormFault};
use block_order::{Control, ControlBlock, ControlBlockList, ControlProgram};
use nc_text::{Block, Body, Program};
use open_forms::open_control;
use std::alloc::{AllocError, Global};

/// What a block does, if a form takes it: a roughing cycle, which may lead to its contour's end, goes
/// on. One whose control can't be told counts as an end, so no form may take it.
fn plain_control(body: &Body, control: Result<Control, FormFault>) -> Control
    ensures { result ≡ plain_control body.now control }
{
    match (body, control) {
        (_, Err(_)) => Control::End,
        (Body::Words(_), Ok(Control::Goto(_))) => Control::Next,
        (_, Ok(control)) => control,
    }
}

/// What a block of the tape does to the order of blocks; one whose control can't be told counts as an
/// end.
pub(crate) fn tape_control(dialect: &Dialect, block: &Block) -> Control
    ensures { result ≡ tape_control dialect.now block.now.body }
{
    plain_control(&block.body, open_control(block, dialect))
}

/// A block as far as its order goes.
fn order_block(dialect: &Dialect, block: &Block) -> ControlBlock
    ensures { result ≡ order_block dialect.now block.now }
{
    ControlBlock {
        line: block.line,
        sequence: block.sequence,
        control: tape_control(dialect, block),
    }
}

/// The blocks of a program as far as their order goes.
pub(crate) fn order_blocks(
    alloc: Global,
    dialect: &Dialect,
    blocks: &[Block],
) -> Result<Vec<ControlBlock>, AllocError>
    ensures { IfOk result (λ order. order.items ≡ map (order_block dialect.now) blocks.now) }
{
    let mut order = Vec::with_capacity(alloc, blocks.len())?;
    for block in blocks {
        order.push(order_block(dialect, block))?;
    }
    Ok(order)
}

/// A program as far as its order goes.
fn order_program(
    alloc: Global,
    dialect: &Dialect,
    program: &Program,
) -> Result<ControlProgram, AllocError>
    requires { HasNumber program.now }
    ensures { IfOk result (λ order. order ≡ order_program dialect.now program.now) }
{
    let blocks = order_blocks(alloc, dialect, program.blocks.as_slice())?;
    Ok(ControlProgram {
        number: program.number as u16,
        line: program.line,
        blocks: ControlBlockList::of(blocks),
    })
}

/// The programs of a tape as far as their order goes.
pub(crate) fn order_tape(
    alloc: Global,
    dialect: &Dialect,
    tape: &[Program],
) -> Result<Vec<ControlProgram>, AllocError>
    requires { All HasNumber tape.now }
    ensures { IfOk result (λ order. order.items ≡ order_tape dialect.now tape.now) }
{
    let mut order = Vec::with_capacity(alloc, tape.len())?;
    for program in tape {
        order.push(order_program(alloc, dialect, program)?)?;
    }
    Ok(order)
}
