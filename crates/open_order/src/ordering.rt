//! The order of the blocks of a tape, read for its waits alone, or the tape's one refusal: of a
//! block, else of the order, else of a jump to a number that stands twice, else of a contour.
ghost use Rattle.std.specs.Prelude.{◌≡◌, IfOk, IfErr};
ghost use Rattle.block_order.specs.Answers.{IfFault};
ghost use Rattle.block_order.specs.Faults.{IsSound};
ghost use Rattle.block_order.specs.Shape.{IsReadTape};
ghost use Rattle.tape_flow.specs.Exact.{IsOrderFault};
ghost use Rattle.nc_text.specs.Shape.{IsTapeShape};
ghost use Rattle.open_order.specs.Exact.{late_fault, IsOrdered, IsRefused};

use crate::cycles::contour_fault;
use crate::doubles::double_fault;
use crate::premises::Premises;
use crate::reading::read_tape;
use block_order::{BlockOrder, ControlProgram};
use nc_number::{Failing, NoMemory};
use nc_text::Program;
use std::alloc::Global;
use tape_flow::FlowFault;
use wait_order::check_order;

/// The order of the blocks of programs, or its first fault, or that memory ran out.
fn order_of(alloc: Global, programs: Vec<ControlProgram>) -> Result<BlockOrder, Failing<FlowFault>>
    requires { IsReadTape programs.items }
    ensures same { IfOk result (λ order. order ≡ programs.items) }
    ensures sound { IfOk result (λ _. IsSound programs.items) }
    ensures first { IfErr result (λ error. IfFault error
        (λ fault. IsOrderFault programs.items fault.line fault.number)) }
{
    match check_order(alloc, programs) {
        Ok(order) => Ok(order),
        Err(Failing::Fault(fault)) => Err(Failing::Fault(FlowFault {
            number: fault.cause.number(),
            line: fault.line,
        })),
        Err(Failing::NoMemory) => Err(Failing::NoMemory),
    }
}

/// The first fault of a jump to a number that stands twice, else of a contour. The only error is out of
/// memory.
fn late_fault(
    alloc: Global,
    order: &BlockOrder,
    tape: &[Program],
) -> Result<Option<FlowFault>, NoMemory>
    requires { IsTapeShape tape.now }
    ensures { IfOk result (λ found. found ≡ late_fault order.now tape.now) }
{
    let doubled = double_fault(alloc, order)?;
    if doubled.is_some() {
        return Ok(doubled);
    }
    let found = contour_fault(alloc, order, tape)?;
    Ok(found)
}

/// The order of the blocks of a tape, or its refusal, or that memory ran out.
///
/// The refusal is that of the first block that is refused. If none is, it is one of the order of
/// the blocks: 60 or 52 first, then 50, 51 or 53, then 65 or 66. If that is in order, it is 65 of a
/// jump to a number that its program has twice, once in another stretch; else 50 or 65 of a contour.
/// The numbers are those of docs/ERRORS.md.
pub fn open_order(
    alloc: Global,
    premises: Premises,
    tape: &[Program],
) -> Result<BlockOrder, Failing<FlowFault>>
    requires { IsTapeShape tape.now }
    ensures ordered { IfOk result (IsOrdered premises tape.now) }
    ensures refused { IfErr result (λ error. IfFault error
        (λ fault. IsRefused premises tape.now fault.line fault.number)) }
{
    let programs = match read_tape(alloc, premises, tape) {
        Ok(programs) => programs,
        Err(error) => return Err(error),
    };
    let order = match order_of(alloc, programs) {
        Ok(order) => order,
        Err(error) => return Err(error),
    };
    let found = match late_fault(alloc, &order, tape) {
        Ok(found) => found,
        Err(_) => return Err(Failing::NoMemory),
    };
    match found {
        Some(fault) => Err(Failing::Fault(fault)),
        None => Ok(order),
    }
}
