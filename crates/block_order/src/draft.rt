//! The order of a tape's blocks before its waits are judged. A program is loud if it has a wait or
//! an end, or calls one that has.
ghost use Rattle.std.specs.Prelude.{◌≡◌, IfOk, IfErr};
ghost use Rattle.block_order.specs.Answers.{IfFault};
ghost use Rattle.block_order.specs.Faults.{Fitting, Finding, Waiting, IsClear, IsFirst};
ghost use Rattle.block_order.specs.Heard.{AreFlagsOf};
ghost use Rattle.block_order.specs.Shape.{IsReadTape};
ghost use Rattle.block_order.specs.TapeTable.{IsTapeTables};

use crate::fault::OrderFault;
use crate::finding::finding_fault;
use crate::fitting::fitting_fault;
use crate::loud::LoudPrograms;
use crate::numbers::ProgramNumbers;
use crate::order::BlockOrder;
use crate::program::ControlProgram;
use crate::tables::{ProgramTables, tape_tables};
use nc_number::Failing;
use std::alloc::Global;
use std::marker::Model;

/// The order of the blocks of a tape whose programs and loops fit together and whose jumps and
/// calls find what they name. Its waits are still to be judged.
#[derive(Drop)]
pub struct DraftOrder {
    /// The programs of the tape, in the order of the text.
    programs: Vec<ControlProgram>,
    /// The tables of the programs, in their order.
    tables: Vec<ProgramTables>,
    /// Which of the programs are loud.
    loud: LoudPrograms,
}

// Contracts see the programs.
impl Model for DraftOrder {
    ghost use Rattle.std.specs.Prelude.{List};
    ghost use Rattle.block_order.specs.declared.program.ControlProgram.{ControlProgram};
    ghost use Rattle.block_order.specs.Kept.{IsDrafted};

    ghost Value = { List ControlProgram };

    ghost view = { λ order. order.programs.items };

    ghost invariant = { λ order. IsDrafted order.programs.items order.tables.items order.loud };
}

impl DraftOrder {
    /// The order of these programs, or the first fault: of programs and loops that don't fit
    /// together, 60 and 52; else of jumps and calls that don't find what they name, 50, 51 and 53.
    /// Each time the least line is told, and on it the least number. `NoMemory`: out of memory.
    pub fn check(
        alloc: Global,
        programs: Vec<ControlProgram>,
    ) -> Result<DraftOrder, Failing<OrderFault>>
        requires listed { IsReadTape programs.items }
        ensures same { IfOk result (λ order. order ≡ programs.items) }
        ensures first { IfErr result (λ error. IfFault error
            (λ fault. IsFirst programs.items fault.line fault.cause)) }
    {
        if let Some(fault) = fitting_fault(alloc, &programs)? {
            return Err(Failing::Fault(fault));
        }
        let tables = tape_tables(alloc, &programs)?;
        let numbers = ProgramNumbers::of(alloc, &programs)?;
        if let Some(fault) = finding_fault(&programs, &tables, &numbers) {
            return Err(Failing::Fault(fault));
        }
        let loud = LoudPrograms::of(alloc, &programs, numbers)?;
        Ok(DraftOrder {
            programs,
            tables,
            loud,
        })
    }

    /// The programs, in the order of the text.
    pub fn as_slice(&self) -> &[ControlProgram]
        ensures same { result.now ≡ self.now }
        ensures listed { IsReadTape self.now }
        ensures fits { IsClear self.now Fitting }
        ensures finds { IsClear self.now Finding }
    {
        self.programs.as_slice()
    }

    /// The tables of the programs, in their order.
    pub fn tables(&self) -> &[ProgramTables]
        ensures { IsTapeTables self.now result.now }
    {
        self.tables.as_slice()
    }

    /// Which programs are loud.
    pub fn loud(&self) -> &LoudPrograms
        ensures { AreFlagsOf self.now result.now }
    {
        &self.loud
    }

    /// This draft as the order of its tape, once wait_order has found no fault of waits. The name
    /// stands for the order that was judged.
    pub fn judged(self) -> BlockOrder
        requires waits { IsClear self Waiting }
        ensures { result ≡ self }
    {
        BlockOrder {
            programs: self.programs,
            tables: self.tables,
            loud: self.loud,
        }
    }
}
