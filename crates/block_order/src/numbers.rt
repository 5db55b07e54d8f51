//! From O numbers to places on the tape. The functions are for this crate alone; other crates ask
//! the order (order.rt), or LoudPrograms (loud.rt: which programs come to a wait or an end).
ghost use Rattle.std.specs.Prelude.{◌≡◌, ◌==◌, ◌<◌, ℕ, Some, None, length, OnOk, IfOk, if◌then◌else◌};
ghost use Rattle.block_order.specs.Order.{blocks, or_else};
ghost use Rattle.block_order.specs.ProgramPlaces.{place_of};
ghost use Rattle.block_order.specs.Numbers.{place_kept, place_known, KnowsPlaces};

use crate::program::{ControlBlock, ControlProgram};
use nc_number::NoMemory;
use std::alloc::Global;

/// The place on the tape of each O number: of the first program with it, if it is given twice.
#[derive(Drop)]
pub struct ProgramNumbers {
    /// At the index of each O number up to the greatest one the place of its program, if any.
    places: Vec<Option<usize>>,
}

/// Adds empty places until this O number has one.
fn make_room(places: &mut Vec<Option<usize>>, number: u16) -> Result<(), NoMemory>
    ensures kept { OnOk result ((q : ℕ) → place_kept places.new.items q ≡ place_kept places.old.items q) }
    ensures room { OnOk result (number < length places.new.items) }
{
    while places.len() <= number as usize {
        places.push(None)?;
    }
    Ok(())
}

/// Notes the place of the program with this number, unless one is noted.
fn note_place(places: &mut Vec<Option<usize>>, number: u16, place: usize) -> Result<(), NoMemory>
    ensures { OnOk result ((q : ℕ) → place_kept places.new.items q
        ≡ or_else (place_kept places.old.items q) (if number == q then Some place else None)) }
{
    make_room(places, number)?;
    let at = number as usize;
    if places[at].is_none() {
        places[at] = Some(place);
    }
    Ok(())
}

impl ProgramNumbers {
    /// The places of these programs.
    pub(crate) fn of(alloc: Global, programs: &[ControlProgram]) -> Result<Self, NoMemory>
        ensures { IfOk result (KnowsPlaces programs.now) }
    {
        let mut places: Vec<Option<usize>> = Vec::new(alloc);
        for (place, program) in programs.iter().enumerate() {
            note_place(&mut places, program.number, place)?;
        }
        Ok(ProgramNumbers { places })
    }

    /// The place of the program with this O number, if the tape has one.
    pub(crate) fn place_of(&self, number: u16) -> Option<usize>
        ensures { result ≡ place_known self.now number }
    {
        self.places.get(number as usize).copied().flatten()
    }

    /// The blocks of the program with this O number, and none of no program.
    pub(crate) fn blocks_of<'a>(
        &self,
        programs: &'a [ControlProgram],
        number: u16,
    ) -> &'a [ControlBlock]
        requires { KnowsPlaces programs.now self.now }
        ensures { result.now ≡ blocks programs.now number }
    {
        match self.place_of(number) {
            Some(place) => match programs.get(place) {
                Some(program) => program.blocks.as_slice(),
                None => &[],
            },
            None => &[],
        }
    }
}
