//! Which programs call a program, so that a search can go from a program back to its callers. The
//! only error here is that memory runs out.
//!
//! loud.rt (which programs come to a wait or an end) looks again at the callers of what it found,
//! and that look decides. So what this table holds changes the time that they take, and not their
//! answer.

use crate::control::Control;
use crate::program::{ControlBlock, ControlProgram};
use indexmap::IndexMap;
use nc_number::NoMemory;
use std::alloc::Global;

/// From an O number to those of the programs that call it, one entry for each call.
#[derive(Drop)]
pub struct Callers {
    /// By the O number of a called program the O numbers of its callers.
    numbers: IndexMap<u16, Vec<u16>>,
}

impl Callers {
    /// No call is noted yet.
    pub fn new(alloc: Global) -> Callers {
        Callers {
            numbers: IndexMap::new(alloc),
        }
    }

    /// Notes a call: the O numbers of the program that is called and of the one that calls it.
    pub fn note(&mut self, alloc: Global, called: u16, caller: u16) -> Result<(), NoMemory> {
        self.numbers
            .entry(called)?
            .or_insert(Vec::new(alloc))
            .push(caller)?;
        Ok(())
    }

    /// All calls of these programs.
    pub(crate) fn of(alloc: Global, programs: &[ControlProgram]) -> Result<Callers, NoMemory> {
        let mut callers = Callers::new(alloc);
        for program in programs {
            callers.note_calls(alloc, program.number, program.blocks.as_slice())?;
        }
        Ok(callers)
    }

    /// Notes the programs that these blocks of a program call.
    fn note_calls(
        &mut self,
        alloc: Global,
        number: u16,
        blocks: &[ControlBlock],
    ) -> Result<(), NoMemory> {
        for block in blocks {
            if let Control::Call {
                program,
                repeats: _,
            } = block.control
            {
                self.note(alloc, program, number)?;
            }
        }
        Ok(())
    }

    /// The O numbers of the programs that call this one.
    pub fn of_program(&self, number: u16) -> &[u16] {
        match self.numbers.get(&number) {
            Some(callers) => callers.as_slice(),
            None => &[],
        }
    }
}
