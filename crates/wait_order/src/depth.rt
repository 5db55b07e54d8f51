//! Which programs are reached by eight calls of loud programs from the main one. A program's flag
//! is its entry in a list with one for each program of the tape. A loud program comes to a wait or
//! an end, itself or by its calls; the others are quiet. waiting.rt calls `reached_by_eight`.
ghost use Rattle.std.specs.Prelude.{◌≡◌, ◌↔◌, ◌⊎◌, ◌<◌, ℕ, true, List, IfOk, length};
ghost use Rattle.wait_order.specs.Depth.{IsLoudCall, HasLoudCall, IsCalledBelow, IsCalledFrom, AreReached};
ghost use Rattle.block_order.specs.ProgramPlaces.{is_flagged};
ghost use Rattle.block_order.specs.Heard.{AreFlagsOf};
ghost use Rattle.wait_order.specs.TapeFaults.{AreProgramsOf};
ghost use Rattle.block_order.specs.declared.program.ControlProgram.{ControlProgram};

use block_order::{Control, ControlBlock, ControlProgram, LoudPrograms};
use nc_number::NoMemory;
use std::alloc::Global;

/// Flags the program that a block of this control calls, if that is loud.
fn flag_called(flags: &mut [bool], loud: &LoudPrograms, control: &Control)
    ensures { (tape : List ControlProgram) → AreFlagsOf tape loud.now → length flags.old ≡ length tape
        → (q : ℕ) → (is_flagged tape flags.new q ≡ true)
        ↔ ((is_flagged tape flags.old q ≡ true) ⊎ IsLoudCall tape control.now q) }
{
    if let Control::Call {
        program,
        repeats: _,
    } = control
    {
        if loud.is_loud(*program) {
            if let Some(place) = loud.place_of(*program) {
                if place < flags.len() {
                    flags[place] = true;
                }
            }
        }
    }
}

/// Flags the loud programs that these blocks call. Other flags stay.
fn flag_calls(flags: &mut [bool], loud: &LoudPrograms, blocks: &[ControlBlock])
    ensures { (tape : List ControlProgram) → AreFlagsOf tape loud.now → length flags.old ≡ length tape
        → (q : ℕ)
        → (is_flagged tape flags.new q ≡ true)
        ↔ ((is_flagged tape flags.old q ≡ true) ⊎ HasLoudCall tape blocks.now q) }
{
    for block in blocks {
        flag_called(flags, loud, &block.control);
    }
}

/// Flags the loud programs that this one calls, if it is flagged as reached. Other flags stay.
fn flag_from(next: &mut [bool], loud: &LoudPrograms, reached: &[bool], program: &ControlProgram)
    ensures { (tape : List ControlProgram) → AreFlagsOf tape loud.now → length next.old ≡ length tape
        → (q : ℕ) → (is_flagged tape next.new q ≡ true) ↔ ((is_flagged tape next.old q ≡ true)
        ⊎ ((is_flagged tape reached.now program.now.number ≡ true) × HasLoudCall tape program.now.blocks q)) }
{
    if loud.flag_of(reached, program.number) {
        flag_calls(next, loud, program.blocks.as_slice());
    }
}

/// Flags the loud programs that the reached programs call. Other flags stay.
fn flag_all(next: &mut [bool], loud: &LoudPrograms, reached: &[bool], programs: &[ControlProgram])
    requires known { AreFlagsOf programs.now loud.now }
    requires count { length next.old ≡ length programs.now }
    ensures { (q : ℕ) → (is_flagged programs.now next.new q ≡ true) ↔ ((is_flagged programs.now next.old q ≡ true)
        ⊎ IsCalledBelow programs.now reached.now (length programs.now) q) }
{
    for program in programs {
        flag_from(next, loud, reached, program);
    }
}

/// The flags of the programs that one call more reaches. The only error is out of memory.
fn called_from(
    alloc: Global,
    programs: &[ControlProgram],
    loud: &LoudPrograms,
    reached: &[bool],
) -> Result<Vec<bool>, NoMemory>
    requires known { AreFlagsOf programs.now loud.now }
    requires own { AreProgramsOf programs.now }
    ensures { IfOk result (λ next. IsCalledFrom programs.now reached.now next.items) }
{
    let mut next = vec![in alloc; false; programs.len()]?;
    flag_all(&mut next, loud, reached, programs);
    Ok(next)
}

/// The flags of which only the main program's is set. The only error is out of memory.
fn main_reached(alloc: Global, programs: &[ControlProgram]) -> Result<Vec<bool>, NoMemory>
    requires some { 0 < length programs.now }
    ensures { IfOk result (λ reached. AreReached programs.now 0 reached.items) }
{
    let mut reached = vec![in alloc; false; programs.len()]?;
    reached[0] = true;
    Ok(reached)
}

/// The flags of the programs that eight calls of loud programs reach from the main one, in the
/// order of the tape. The only error is out of memory.
pub(crate) fn reached_by_eight(
    alloc: Global,
    programs: &[ControlProgram],
    loud: &LoudPrograms,
) -> Result<Vec<bool>, NoMemory>
    requires some { 0 < length programs.now }
    requires known { AreFlagsOf programs.now loud.now }
    requires own { AreProgramsOf programs.now }
    ensures { IfOk result (λ reached. AreReached programs.now 8 reached.items) }
{
    let mut reached = main_reached(alloc, programs)?;
    for _round in 0..8u8 {
        reached = called_from(alloc, programs, loud, &reached)?;
    }
    Ok(reached)
}
