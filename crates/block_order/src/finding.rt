//! The first fault in what jumps and calls find: 50, 51 or 53. Which faults there are is in
//! specs/Faults.antt. draft.rt calls `finding_fault`.
ghost use Rattle.std.specs.Prelude.{◌≡◌, ◌↔◌, ◌<◌, ◌≤◌, List, IsTrue, None, Some, is_some, length, if◌then◌else◌};
ghost use Rattle.nc_number.specs.declared.limits.TheConstants.{MOST_BLOCKS};
ghost use Rattle.nc_number.specs.declared.cause.Cause.TheVariants.{NoProgram};
ghost use Rattle.block_order.specs.declared.program.ControlBlock.{ControlBlock};
ghost use Rattle.block_order.specs.declared.program.ControlProgram.{ControlProgram};
ghost use Rattle.block_order.specs.Order.{main_number, program_of};
ghost use Rattle.block_order.specs.Faults.{Fitting, Finding, IsClear};
ghost use Rattle.block_order.specs.First.{IsFirstOf};
ghost use Rattle.block_order.specs.Found.{JumpFault, BlockFault, IsFaultOf, IsProgramFault};
ghost use Rattle.block_order.specs.Numbers.{KnowsPlaces};
ghost use Rattle.block_order.specs.Shape.{IsReadTape};
ghost use Rattle.block_order.specs.TapeTable.{IsProgramTables, IsTapeTables};

use crate::control::Control;
use crate::fault::OrderFault;
use crate::numbers::ProgramNumbers;
use crate::program::ControlProgram;
use crate::tables::ProgramTables;
use nc_number::Cause;

/// The first fault of a tape in what its jumps and calls find: a sequence number that the program
/// lacks, 50, an O number that the tape lacks, 51, or a jump into a loop, 53.
pub(crate) fn finding_fault(
    tape: &[ControlProgram],
    tables: &[ProgramTables],
    numbers: &ProgramNumbers,
) -> Option<OrderFault>
    requires listed { IsReadTape tape.now }
    requires fits { IsClear tape.now Fitting }
    requires made { IsTapeTables tape.now tables.now }
    requires known { KnowsPlaces tape.now numbers.now }
    ensures { IsFirstOf tape.now Finding result }
{
    let main = tape[0].number;
    for (at, program) in tape.iter().enumerate() {
        let own = &tables[at];
        if let Some(OrderFault { cause, line }) = program_fault(numbers, own, main, program) {
            let cause: Cause = cause;
            return Some(OrderFault { cause, line });
        }
    }
    None
}

/// The first fault of one program, with its own tables. `main` is the main program's O number.
fn program_fault(
    numbers: &ProgramNumbers,
    own: &ProgramTables,
    main: u16,
    program: &ControlProgram,
) -> Option<OrderFault>
    requires { length program.now.blocks ≤ MOST_BLOCKS }
    ensures { (tape : List ControlProgram) → KnowsPlaces tape numbers.now
        → IsProgramTables program.now.blocks own.now → main ≡ main_number tape
        → IsProgramFault tape program.now result }
{
    let is_main = program.number == main;
    let mut place: u32 = 0;
    for block in program.blocks.as_slice() {
        if let Some(cause) = block_fault(numbers, own, is_main, place, block.control) {
            let cause: Cause = cause;
            return Some(OrderFault {
                cause,
                line: block.line,
            });
        }
        place += 1;
    }
    None
}

/// Why the block's jump or call fails, if it does. A GOTO that is computed, and an M99 P outside
/// the main program, are judged only in the run.
fn block_fault(
    numbers: &ProgramNumbers,
    own: &ProgramTables,
    is_main: bool,
    place: u32,
    control: Control,
) -> Option<Cause>
    ensures { (tape : List ControlProgram) (program : ControlProgram) → KnowsPlaces tape numbers.now
        → IsProgramTables program.blocks own.now → (IsTrue is_main ↔ (program.number ≡ main_number tape))
        → place < length program.blocks → IsFaultOf (BlockFault tape program place control) result }
{
    match control {
        Control::Goto(Some(number)) => jump_fault(own, place, number),
        Control::BackTo(number) => {
            if is_main {
                jump_fault(own, place, number)
            } else {
                None
            }
        }
        Control::Call { program, .. } => call_fault(numbers, program),
        _ => None,
    }
}

/// Why a jump from this block to the sequence number fails, if it does: 50 or 53.
fn jump_fault(own: &ProgramTables, place: u32, number: u32) -> Option<Cause>
    ensures { (bs : List ControlBlock) → IsProgramTables bs own.now
        → IsFaultOf (JumpFault bs place number) result }
{
    match own.target(place, number) {
        Ok(_) => None,
        Err(cause) => Some(cause),
    }
}

/// 51 if the tape has no program of this O number.
fn call_fault(numbers: &ProgramNumbers, called: u16) -> Option<Cause>
    ensures { (tape : List ControlProgram) → KnowsPlaces tape numbers.now
        → result ≡ (if is_some (program_of tape called) then None else Some NoProgram) }
{
    match numbers.place_of(called) {
        Some(_) => None,
        None => Some(Cause::NoProgram),
    }
}
