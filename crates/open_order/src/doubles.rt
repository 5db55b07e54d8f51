//! Jumps to a sequence number that their program has twice: each of its blocks counts as a target. A
//! jump of which one target lies behind or before a wait or another mark is refused, 65.
//! `open_order` (ordering.rt) asks for the first of them, after the order of the blocks.
ghost use Rattle.std.specs.Prelude.{◌≡◌, ◌≤◌, ◌||◌, ◌&&◌, ◌++◌, not, ℕ, length, nat_eq, get_or, IfOk, OnOk};
ghost use Rattle.std.specs.HashSet.{contains};
ghost use Rattle.std.specs.Option.{option_to_list};
ghost use Rattle.block_order.specs.declared.control.Control.TheVariants as Control;
ghost use Rattle.block_order.specs.Loud.{loud};
ghost use Rattle.block_order.specs.Order.{blocks};
ghost use Rattle.nc_number.specs.declared.limits.TheConstants.{MOST_BLOCKS};
ghost use Rattle.wait_order.specs.Searchers.{is_back_to, has_back_to};
ghost use Rattle.open_order.specs.Doubles.{is_elsewhere, double_at, doubles_from, may_mean, is_meant, strays, stray_at, strays_from, is_counting, program_fault, programs_fault, double_fault};

use crate::counts::{Counting, counts_of};
use block_order::{BlockOrder, Control, ControlBlock};
use indexmap::IndexSet;
use nc_number::{Cause, NoMemory};
use std::alloc::Global;
use tape_flow::FlowFault;

/// A block whose sequence number its program has at another block too.
#[derive(Clone, Copy, Debug, PartialEq, Eq)]
pub(crate) struct Double {
    /// The number.
    pub(crate) number: u32,
    /// How many marks of the program stand before the block.
    pub(crate) stretch: u64,
}

/// The sequence numbers to which a block may jump.
#[derive(Drop)]
pub(crate) enum Meant {
    /// None: the block is no jump.
    Nothing,
    /// Any, of a GOTO whose number is computed.
    Any,
    /// One that is written out.
    One(u32),
    /// Those by which a program that is called returns.
    These(IndexSet<u32>),
}

/// The count before the block at a place.
fn count_at(counts: &[u64], place: u32) -> u64
    ensures { result ≡ get_or counts.now place 0 }
{
    match counts.get(place as usize) {
        Some(count) => *count,
        None => 0,
    }
}

/// Whether a search that begins at a place leads elsewhere.
fn is_elsewhere(place: u32, found: Option<u32>) -> bool
    ensures { result ≡ is_elsewhere place found }
{
    match found {
        Some(found) => found != place,
        None => true,
    }
}

/// The block at a place, if its number stands at another block too.
fn double_at(
    order: &BlockOrder,
    program: u16,
    counts: &[u64],
    place: u32,
    sequence: Option<u32>,
) -> Option<Double>
    ensures { result ≡ double_at (blocks order.now program) counts.now place sequence }
{
    match sequence {
        Some(number) => {
            if is_elsewhere(place, order.seek(program, place, number)) {
                Some(Double {
                    number,
                    stretch: count_at(counts, place),
                })
            } else {
                None
            }
        }
        None => None,
    }
}

/// Adds a block, if there is one. The only error is out of memory.
fn push_double(doubles: &mut Vec<Double>, double: Option<Double>) -> Result<(), NoMemory>
    ensures { OnOk result (doubles.new.items ≡ doubles.old.items ++ option_to_list double) }
{
    match double {
        Some(double) => {
            doubles.push(double)?;
            Ok(())
        }
        None => Ok(()),
    }
}

/// The blocks of a program whose numbers it has twice, with their stretches, which `counts` tells. The
/// only error is out of memory.
fn doubles_of(
    alloc: Global,
    order: &BlockOrder,
    program: u16,
    counts: &[u64],
) -> Result<Vec<Double>, NoMemory>
    requires { length (blocks order.now program) ≤ MOST_BLOCKS }
    ensures { IfOk result (λ found. found.items
        ≡ doubles_from (blocks order.now program) counts.now 0 (blocks order.now program)) }
{
    let mut found = Vec::new(alloc);
    let mut place: u32 = 0;
    let listed = order.blocks(program);
    for block in listed {
        push_double(
            &mut found,
            double_at(order, program, counts, place, block.sequence),
        )?;
        place += 1;
    }
    Ok(found)
}

/// Puts the number of an M99, if the control is one, to the others.
fn note_return(numbers: &mut IndexSet<u32>, control: &Control) -> Result<(), NoMemory>
    ensures { OnOk result ((n : ℕ) → contains nat_eq numbers.new n
        ≡ (contains nat_eq numbers.old n || is_back_to n control.now)) }
{
    if let Control::BackTo(number) = control {
        numbers.insert(*number)?;
    }
    Ok(())
}

/// The numbers of the M99 among these blocks. The only error is out of memory.
fn return_numbers(alloc: Global, listed: &[ControlBlock]) -> Result<IndexSet<u32>, NoMemory>
    ensures { IfOk result (λ numbers. (n : ℕ) → contains nat_eq numbers n ≡ has_back_to listed.now n) }
{
    let mut numbers = IndexSet::new(alloc);
    for block in listed {
        note_return(&mut numbers, &block.control)?;
    }
    Ok(numbers)
}

/// The numbers to which the call of a program may return by its M99. The only error is out of memory.
fn meant_by_call(alloc: Global, order: &BlockOrder, called: u16) -> Result<Meant, NoMemory>
    ensures { IfOk result (λ meant. (n : ℕ) → is_meant meant n
        ≡ (not (loud order.now called) && has_back_to (blocks order.now called) n)) }
{
    if order.is_loud(called) {
        return Ok(Meant::Nothing);
    }
    let numbers = return_numbers(alloc, order.blocks(called))?;
    Ok(Meant::These(numbers))
}

/// The number of an M99 P of a program, which is a jump of its own in the main program alone.
fn meant_by_return(order: &BlockOrder, program: u16, number: u32) -> Meant
    ensures { (n : ℕ) → is_meant result n ≡ may_mean order.now program (Control.BackTo number) n }
{
    if program == order.main() {
        Meant::One(number)
    } else {
        Meant::Nothing
    }
}

/// The numbers to which a block of this control may jump. The only error is out of memory.
fn meant_by(
    alloc: Global,
    order: &BlockOrder,
    program: u16,
    control: Control,
) -> Result<Meant, NoMemory>
    ensures { IfOk result (λ meant. (n : ℕ) → is_meant meant n ≡ may_mean order.now program control n) }
{
    match control {
        Control::Goto(None) => Ok(Meant::Any),
        Control::Goto(Some(number)) => Ok(Meant::One(number)),
        Control::BackTo(number) => Ok(meant_by_return(order, program, number)),
        Control::Call {
            program: called,
            repeats: _,
        } => {
            let meant = meant_by_call(alloc, order, called)?;
            Ok(meant)
        }
        _ => Ok(Meant::Nothing),
    }
}

/// Whether the number is one of those that are meant.
fn is_meant(meant: &Meant, number: u32) -> bool
    ensures { result ≡ is_meant meant.now number }
{
    match meant {
        Meant::Nothing => false,
        Meant::Any => true,
        Meant::One(own) => *own == number,
        Meant::These(numbers) => numbers.contains(&number),
    }
}

/// Whether one of these blocks has a number that is meant, and stands in another stretch.
fn strays(doubles: &[Double], stretch: u64, meant: &Meant) -> bool
    ensures { result ≡ strays (λ n. is_meant meant.now n) stretch doubles.now }
{
    doubles.iter().any(|double| double.stretch != stretch && is_meant(meant, double.number))
}

/// Whether a jump of a block of this control may lead to one of these blocks in another stretch. The only
/// error is out of memory.
fn control_strays(
    alloc: Global,
    order: &BlockOrder,
    program: u16,
    doubles: &[Double],
    stretch: u64,
    control: Control,
) -> Result<bool, NoMemory>
    ensures { IfOk result (λ strayed. strayed
        ≡ strays (may_mean order.now program control) stretch doubles.now) }
{
    let meant = meant_by(alloc, order, program, control)?;
    Ok(strays(doubles, stretch, &meant))
}

/// The refusal of a block at a place, if a jump of it may lead to one of these blocks in another stretch.
/// The only error is out of memory.
#[tactic(auto, unfolding(crate::specs::Doubles::stray_at))]
fn stray_at(
    alloc: Global,
    order: &BlockOrder,
    program: u16,
    doubles: &[Double],
    stretch: u64,
    block: &ControlBlock,
) -> Result<Option<FlowFault>, NoMemory>
    ensures { IfOk result (λ found. found ≡ stray_at order.now program doubles.now stretch block.now) }
{
    let strayed = control_strays(alloc, order, program, doubles, stretch, block.control)?;
    if strayed {
        Ok(Some(FlowFault {
            number: Cause::BranchAtWait.number(),
            line: block.line,
        }))
    } else {
        Ok(None)
    }
}

/// The first block of a program of which a jump may lead to one of these blocks in another stretch, as
/// its refusal. The only error is out of memory.
fn first_stray(
    alloc: Global,
    order: &BlockOrder,
    program: u16,
    counts: &[u64],
    doubles: &[Double],
) -> Result<Option<FlowFault>, NoMemory>
    requires { length (blocks order.now program) ≤ MOST_BLOCKS }
    ensures { IfOk result (λ found. found
        ≡ strays_from order.now program counts.now doubles.now 0 (blocks order.now program)) }
{
    let mut place: u32 = 0;
    let listed = order.blocks(program);
    for block in listed {
        let stretch = count_at(counts, place);
        let found = stray_at(alloc, order, program, doubles, stretch, block)?;
        if found.is_some() {
            return Ok(found);
        }
        place += 1;
    }
    Ok(None)
}

/// Whether labels depend on the order of the blocks of a program: of the main one, and of each that
/// waits or ends.
fn is_counting(order: &BlockOrder, program: u16) -> bool
    ensures { result ≡ is_counting order.now program }
{
    program == order.main() || order.is_loud(program)
}

/// The first jump of a program to a number that stands twice in it, once in another stretch. The only
/// error is out of memory.
fn program_fault(
    alloc: Global,
    order: &BlockOrder,
    program: u16,
) -> Result<Option<FlowFault>, NoMemory>
    requires { length (blocks order.now program) ≤ MOST_BLOCKS }
    ensures { IfOk result (λ found. found ≡ program_fault order.now program) }
{
    if !is_counting(order, program) {
        return Ok(None);
    }
    let counts = counts_of(alloc, order, Counting::Marks, program)?;
    let doubles = doubles_of(alloc, order, program, counts.as_slice())?;
    first_stray(alloc, order, program, counts.as_slice(), doubles.as_slice())
}

/// The first jump of a tape to a number that its program has twice, once behind or before a wait or
/// another mark: 65. The only error is out of memory.
pub(crate) fn double_fault(alloc: Global, order: &BlockOrder) -> Result<Option<FlowFault>, NoMemory>
    ensures { IfOk result (λ found. found ≡ double_fault order.now) }
{
    let programs = order.as_slice();
    for program in programs {
        let found = program_fault(alloc, order, program.number)?;
        if found.is_some() {
            return Ok(found);
        }
    }
    Ok(None)
}
