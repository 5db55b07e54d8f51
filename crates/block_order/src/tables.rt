//! The tables of a tape whose programs and loops fit together. draft.rt makes them; order.rt looks
//! up in them.
ghost use Rattle.std.specs.Prelude.{◌≤◌, IfOk, length};
ghost use Rattle.nc_number.specs.declared.limits.TheConstants.{MOST_BLOCKS};
ghost use Rattle.block_order.specs.Faults.{Fitting, IsClear};
ghost use Rattle.block_order.specs.Fitting.{Fits};
ghost use Rattle.block_order.specs.TapeTable.{IsProgramTables, IsTapeTables};
ghost use Rattle.block_order.specs.Shape.{IsReadTape};

use crate::loops::LoopTable;
use crate::program::ControlProgram;
use crate::sequence::SequenceIndex;
use nc_number::{Cause, NoMemory};
use std::alloc::Global;

/// The tables of one program.
#[derive(Drop)]
pub struct ProgramTables {
    /// Its blocks by their sequence numbers.
    pub index: SequenceIndex,
    /// Its loops.
    pub loops: LoopTable,
}

impl ProgramTables {
    ghost use Rattle.std.specs.Prelude.{◌≡◌, List};
    ghost use Rattle.block_order.specs.declared.program.ControlBlock.{ControlBlock};
    ghost use Rattle.block_order.specs.Order.{target_of};

    /// Where a jump from the block to the sequence number leads.
    ///
    /// Errors: [`Cause::NoSequence`], 50, where the program has no such number;
    /// [`Cause::IntoLoop`], 53, where a loop holds the target and not the block.
    pub fn target(&self, block: u32, number: u32) -> Result<u32, Cause>
        ensures { (bs : List ControlBlock) → IsProgramTables bs self.now → result ≡ target_of bs block number }
    {
        let Some(target) = self.index.seek(block, number) else {
            return Err(Cause::NoSequence);
        };
        let reach = self.loops.reach(target);
        if reach.holds(block) {
            Ok(target)
        } else {
            Err(Cause::IntoLoop)
        }
    }
}

/// The tables of a tape's programs, in the order of the text. The only error is that memory runs
/// out.
pub(crate) fn tape_tables(
    alloc: Global,
    tape: &[ControlProgram],
) -> Result<Vec<ProgramTables>, NoMemory>
    requires listed { IsReadTape tape.now }
    requires fits { IsClear tape.now Fitting }
    ensures { IfOk result (λ tables. IsTapeTables tape.now tables.items) }
{
    let mut programs: Vec<ProgramTables> = Vec::new(alloc);
    for program in tape {
        programs.push(program_tables(alloc, program)?)?;
    }
    Ok(programs)
}

/// The tables of one program.
fn program_tables(alloc: Global, program: &ControlProgram) -> Result<ProgramTables, NoMemory>
    requires few { length program.now.blocks ≤ MOST_BLOCKS }
    requires fit { Fits program.now.blocks }
    ensures { IfOk result (λ tables. IsProgramTables program.now.blocks tables) }
{
    let blocks = program.blocks.as_slice();
    let index = SequenceIndex::of(alloc, blocks)?;
    let loops = LoopTable::of(alloc, blocks)?;
    Ok(ProgramTables { index, loops })
}
