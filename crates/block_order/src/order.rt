//! The order of a tape's blocks, checked: what crates above ask where a jump, a loop or a call
//! leads.
ghost use Rattle.std.specs.Prelude.{◌≡◌, ◌<◌, [], None, IfSome, slice_get};
ghost use Rattle.std.specs.Option.{option_copied};
ghost use Rattle.block_order.specs.Faults.{IsSound};
ghost use Rattle.block_order.specs.Loud.{loud};
ghost use Rattle.block_order.specs.Order.{blocks, main_number, program_of, seek, end_of_loop, head_of_loop, target_of};
ghost use Rattle.block_order.specs.ProgramPlaces.{place_of};
ghost use Rattle.block_order.specs.Shape.{IsReadTape};
ghost use Rattle.block_order.specs.TapeTable.{IsProgramTables};

use crate::loud::LoudPrograms;
use crate::program::{ControlBlock, ControlProgram};
use crate::tables::ProgramTables;
use nc_number::Cause;
use std::marker::Model;

/// The order of the blocks of a tape in which nothing is wrong: its programs and loops fit
/// together, its jumps and calls find what they name, and its waits stay in order.
#[derive(Drop)]
pub struct BlockOrder {
    /// The programs of the tape, in the order of the text.
    pub(crate) programs: Vec<ControlProgram>,
    /// The tables of the programs, in their order.
    pub(crate) tables: Vec<ProgramTables>,
    /// Which of the programs are loud.
    pub(crate) loud: LoudPrograms,
}

// Contracts see the programs.
impl Model for BlockOrder {
    ghost use Rattle.std.specs.Prelude.{List};
    ghost use Rattle.block_order.specs.declared.program.ControlProgram.{ControlProgram};
    ghost use Rattle.block_order.specs.Kept.{IsKept};

    ghost Value = { List ControlProgram };

    ghost view = { λ order. order.programs.items };

    ghost invariant = { λ order. IsKept order.programs.items order.tables.items order.loud };
}

impl BlockOrder {
    /// The programs, in the order of the text.
    pub fn as_slice(&self) -> &[ControlProgram]
        ensures same { result.now ≡ self.now }
        ensures listed { IsReadTape self.now }
        ensures sound { IsSound self.now }
    {
        self.programs.as_slice()
    }

    /// The O number of the main program.
    pub fn main(&self) -> u16
        ensures { result ≡ main_number self.now }
    {
        self.programs[0].number
    }

    /// The place, in the order of the text, of the first program with this O number.
    pub fn place_of(&self, program: u16) -> Option<usize>
        ensures { result ≡ place_of self.now program }
    {
        self.loud.place_of(program)
    }

    /// The first program with this O number, if the tape has one.
    pub fn program(&self, program: u16) -> Option<&ControlProgram>
        ensures { option_copied result ≡ program_of self.now program }
    {
        match self.loud.place_of(program) {
            Some(place) => self.programs.get(place),
            None => None,
        }
    }

    /// The blocks of the first program with this O number, and none of no program.
    pub fn blocks(&self, program: u16) -> &[ControlBlock]
        ensures { result.now ≡ blocks self.now program }
    {
        self.loud.blocks_of(&self.programs, program)
    }

    /// The tables of the first program with this O number, if the tape has one.
    fn tables_of(&self, program: u16) -> Option<&ProgramTables>
        ensures some { IfSome result (λ tables. IsProgramTables (blocks self.now program) tables.now) }
        ensures none { result ≡ None → blocks self.now program ≡ [] }
    {
        match self.loud.place_of(program) {
            Some(place) => Some(&self.tables[place]),
            None => None,
        }
    }

    /// The block of a program at a place, from 0.
    pub fn block(&self, program: u16, block: u32) -> Option<ControlBlock>
        ensures { result ≡ slice_get (blocks self.now program) block }
    {
        self.blocks(program).get(block as usize).copied()
    }

    /// Where a search for a sequence number leads: to the next block of that number behind the
    /// block, else to the first one of its program.
    pub fn seek(&self, program: u16, block: u32, number: u32) -> Option<u32>
        ensures { result ≡ seek (blocks self.now program) block number }
    {
        match self.tables_of(program) {
            Some(tables) => tables.index.seek(block, number),
            None => None,
        }
    }

    /// Where a jump from the block to the sequence number leads.
    ///
    /// Errors: [`Cause::NoSequence`], 50, where the program has no such number;
    /// [`Cause::IntoLoop`], 53, where a loop holds the target and not the block.
    pub fn target(&self, program: u16, block: u32, number: u32) -> Result<u32, Cause>
        ensures { result ≡ target_of (blocks self.now program) block number }
    {
        match self.tables_of(program) {
            Some(tables) => tables.target(block, number),
            None => Err(Cause::NoSequence),
        }
    }

    /// The END of the loop that begins at the block.
    pub fn loop_end(&self, program: u16, head: u32) -> Option<u32>
        ensures ends { result ≡ end_of_loop (blocks self.now program) head }
        ensures behind { IfSome result (λ close. close < u32.MAX) }
    {
        match self.tables_of(program) {
            Some(tables) => tables.loops.end_of(head),
            None => None,
        }
    }

    /// The head of the loop that ends at the block.
    pub fn loop_head(&self, program: u16, close: u32) -> Option<u32>
        ensures { result ≡ head_of_loop (blocks self.now program) close }
    {
        match self.tables_of(program) {
            Some(tables) => tables.loops.head_of(close),
            None => None,
        }
    }

    /// Whether the program has a wait or an end, or calls a program that is loud; `false` for a
    /// number without a program.
    pub fn is_loud(&self, program: u16) -> bool
        ensures { result ≡ loud self.now program }
    {
        self.loud.is_loud(program)
    }
}
