//! What is wrong with the contours of the cycles G70 to G73 of a tape: 50 if the program lacks the
//! number of P or Q; 65 if the contour ends before it begins, or holds a wait, an end, an M99 or a
//! call of a program that waits or ends. A number that stands twice may mean each of its blocks: the
//! contour is then the widest. docs/ERRORS.md explains the numbers.
//! `open_order` (ordering.rt) asks for the first of them, after the order of the blocks.
ghost use Rattle.std.specs.Prelude.{◌≡◌, ◌≤◌, ◌<◌, length, None, Some, IfSome, IfOk, if◌then◌else◌};
ghost use Rattle.block_order.specs.Loud.{loud};
ghost use Rattle.block_order.specs.Order.{blocks, has_sequence, first_numbered};
ghost use Rattle.nc_text.specs.Shape.{IsTapeShape};
ghost use Rattle.open_order.specs.declared.counts.Counting.TheVariants as Counting;
ghost use Rattle.open_order.specs.Counts.{counts_from};
ghost use Rattle.open_order.specs.Contours.{last_numbered, fault_between, fault_from, contour_cause, fault_at, block_fault, blocks_fault, contour_fault};

use crate::contour::{Contour, contour_in};
use crate::counts::{Counting, counts_of, is_calm};
use block_order::{BlockOrder, ControlBlock};
use nc_number::{Cause, NoMemory};
use nc_text::{Block, Program};
use std::alloc::Global;
use tape_flow::FlowFault;

/// Whether a sequence number, which a block may lack, is this one.
fn is_number(own: Option<u32>, number: u32) -> bool
    ensures { result ≡ has_sequence number own }
{
    match own {
        Some(own) => number == own,
        None => false,
    }
}

/// The place of the first block with this sequence number.
fn first_place(listed: &[ControlBlock], number: u32) -> Option<usize>
    ensures { result ≡ first_numbered listed.now 0 number }
{
    let mut place = 0usize;
    for block in listed {
        if is_number(block.sequence, number) {
            return Some(place);
        }
        place += 1;
    }
    None
}

/// This place if the block there has the number, else the one that was found before.
fn later_place(found: Option<usize>, own: Option<u32>, number: u32, place: usize) -> Option<usize>
    ensures { result ≡ (if has_sequence number own then Some place else found) }
{
    if is_number(own, number) {
        Some(place)
    } else {
        found
    }
}

/// The place of the last block with this sequence number.
fn last_place(listed: &[ControlBlock], number: u32) -> Option<usize>
    ensures { result ≡ last_numbered None listed.now 0 number }
{
    let mut found: Option<usize> = None;
    let mut place = 0usize;
    for block in listed {
        found = later_place(found, block.sequence, number, place);
        place += 1;
    }
    found
}

/// The fault of a contour whose first block was found: 50 if its last block was not, 65 if the
/// contour is not allowed.
fn fault_between(
    order: &BlockOrder,
    program: u16,
    counts: &[u64],
    first: usize,
    last: Option<usize>,
) -> Option<Cause>
    requires within { IfSome last (λ n. n < length (blocks order.now program)) }
    requires counts { counts.now ≡ counts_from (loud order.now) Counting.Disturbing 0 (blocks order.now program) }
    ensures { result ≡ fault_between (loud order.now) (blocks order.now program) first last }
{
    match last {
        Some(last) => {
            if is_calm(order, program, counts, first, last) {
                None
            } else {
                Some(Cause::BranchAtWait)
            }
        }
        None => Some(Cause::NoSequence),
    }
}

/// The fault of a contour: 50 if its first block was not found, else that of the contour from
/// there.
fn fault_from(
    order: &BlockOrder,
    program: u16,
    counts: &[u64],
    contour: Contour,
    first: Option<usize>,
) -> Option<Cause>
    requires { counts.now ≡ counts_from (loud order.now) Counting.Disturbing 0 (blocks order.now program) }
    ensures { result ≡ fault_from (loud order.now) (blocks order.now program) contour first }
{
    match first {
        Some(first) => {
            let last = last_place(order.blocks(program), contour.to);
            fault_between(order, program, counts, first, last)
        }
        None => Some(Cause::NoSequence),
    }
}

/// What is wrong with the contour that a block of a program names, if it names one.
fn contour_cause(
    order: &BlockOrder,
    program: u16,
    counts: &[u64],
    contour: Option<Contour>,
) -> Option<Cause>
    requires { counts.now ≡ counts_from (loud order.now) Counting.Disturbing 0 (blocks order.now program) }
    ensures { result ≡ contour_cause (loud order.now) (blocks order.now program) contour }
{
    match contour {
        Some(contour) => {
            let first = first_place(order.blocks(program), contour.from);
            fault_from(order, program, counts, contour, first)
        }
        None => None,
    }
}

/// The fault of a contour, told at the line of its cycle.
fn fault_at(line: u32, cause: Option<Cause>) -> Option<FlowFault>
    ensures { result ≡ fault_at line cause }
{
    match cause {
        Some(cause) => Some(FlowFault {
            number: cause.number(),
            line,
        }),
        None => None,
    }
}

/// The fault of the contour that a block of a program names, if it names one.
fn block_fault(order: &BlockOrder, program: u16, counts: &[u64], block: &Block) -> Option<FlowFault>
    requires { counts.now ≡ counts_from (loud order.now) Counting.Disturbing 0 (blocks order.now program) }
    ensures { result ≡ block_fault (loud order.now) (blocks order.now program) block.now }
{
    fault_at(
        block.line,
        contour_cause(order, program, counts, contour_in(block)),
    )
}

/// The first fault of a contour of these blocks of a program.
fn blocks_fault(
    order: &BlockOrder,
    program: u16,
    counts: &[u64],
    listed: &[Block],
) -> Option<FlowFault>
    requires { counts.now ≡ counts_from (loud order.now) Counting.Disturbing 0 (blocks order.now program) }
    ensures { result ≡ blocks_fault (loud order.now) (blocks order.now program) listed.now }
{
    for block in listed {
        if let Some(fault) = block_fault(order, program, counts, block) {
            return Some(fault);
        }
    }
    None
}

/// The first fault of a contour of a program. Its blocks are those of the only program with this O
/// number. The only error is out of memory.
fn program_fault(
    alloc: Global,
    order: &BlockOrder,
    program: &Program,
) -> Result<Option<FlowFault>, NoMemory>
    requires { program.now.number ≤ 9999 }
    ensures { IfOk result (λ found. found
        ≡ blocks_fault (loud order.now) (blocks order.now program.now.number) program.now.blocks) }
{
    let number = program.number as u16;
    let counts = counts_of(alloc, order, Counting::Disturbing, number)?;
    let found = blocks_fault(order, number, counts.as_slice(), program.blocks.as_slice());
    Ok(found)
}

/// The first fault of a contour of a tape: 50 if a program lacks a number of it; 65 if it ends
/// before it begins, or a block of it is a wait, an end, an M99, or calls a program that waits or
/// ends. The only error is out of memory.
pub(crate) fn contour_fault(
    alloc: Global,
    order: &BlockOrder,
    tape: &[Program],
) -> Result<Option<FlowFault>, NoMemory>
    requires { IsTapeShape tape.now }
    ensures { IfOk result (λ found. found ≡ contour_fault order.now tape.now) }
{
    for program in tape {
        let found = program_fault(alloc, order, program)?;
        if found.is_some() {
            return Ok(found);
        }
    }
    Ok(None)
}
