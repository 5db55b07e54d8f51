//! The blocks of a program by their sequence numbers. Part of a program's tables (tables.rt).
ghost use Rattle.std.specs.Prelude.{◌≡◌, ℕ, ◌<◌, ◌≤◌, ◌↔◌, List, Some, length, IfOk};
ghost use Rattle.nc_number.specs.declared.limits.TheConstants.{MOST_BLOCKS};
ghost use Rattle.block_order.specs.Order.{seek};

use crate::program::ControlBlock;
use indexmap::IndexMap;
use nc_number::NoMemory;
use std::alloc::Global;

/// From a sequence number to the ascending places of its blocks in one program.
#[derive(Drop)]
pub struct SequenceIndex {
    /// The ascending places of each number.
    places: IndexMap<u32, Vec<u32>>,
}

/// The blocks from which the search for its number comes to one block: those from `low` up to, and
/// without, `high`, and those from `around` on, whose search begins anew at the program's start.
#[derive(Clone, Copy, Debug, PartialEq, Eq)]
pub struct Finders {
    /// The first block whose search goes forward to it.
    pub low: u32,
    /// The block itself, which is behind the last of them.
    pub high: u32,
    /// The first block whose search comes round to it.
    pub around: Option<u32>,
}

impl SequenceIndex {
    ghost use Rattle.block_order.specs.declared.program.ControlBlock.{ControlBlock};
    ghost use Rattle.block_order.specs.Places.{IsIndexOf, IsNumbered, IsFinder, places_of};

    /// The index of a program's blocks.
    pub(crate) fn of(alloc: Global, blocks: &[ControlBlock]) -> Result<SequenceIndex, NoMemory>
        requires { length blocks.now ≤ MOST_BLOCKS }
        ensures { IfOk result (λ index. IsIndexOf blocks.now index) }
    {
        let mut places: IndexMap<u32, Vec<u32>> = IndexMap::new(alloc);
        let mut place: u32 = 0;
        for block in blocks {
            if let Some(number) = block.sequence {
                places
                    .entry(number)?
                    .or_insert(Vec::new(alloc))
                    .push(place)?;
            }
            place += 1;
        }
        Ok(SequenceIndex { places })
    }

    /// The places of the blocks of this number, in their order.
    fn places_of(&self, number: u32) -> &[u32]
        ensures { (bs : List ControlBlock) → IsIndexOf bs self.now → result.now ≡ places_of bs number }
    {
        match self.places.get(&number) {
            Some(places) => places.as_slice(),
            None => &[],
        }
    }

    /// Where a search for this number leads from a block: to the next block of the number behind
    /// it, else to the first one of the program.
    pub fn seek(&self, from: u32, number: u32) -> Option<u32>
        ensures { (bs : List ControlBlock) → IsIndexOf bs self.now → result ≡ seek bs from number }
    {
        let places = self.places_of(number);
        let behind = places.partition_point(|place| *place <= from);
        places.get(behind).copied().or(places.first().copied())
    }

    /// From which blocks the search for this number comes to its block at a place.
    pub fn finders(&self, number: u32, place: u32) -> Finders
        ensures { (bs : List ControlBlock) → IsIndexOf bs self.now → IsNumbered bs place number
            → (block : ℕ) → (seek bs block number ≡ Some place) ↔ IsFinder result block }
    {
        let places = self.places_of(number);
        let before = places.partition_point(|other| *other < place);
        if before == 0 {
            Finders {
                low: 0,
                high: place,
                around: places.last().copied(),
            }
        } else {
            Finders {
                low: places[before - 1],
                high: place,
                around: None,
            }
        }
    }
}
