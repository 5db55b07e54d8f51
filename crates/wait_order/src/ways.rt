//! Where the jumps of one program lead, and in which stretch its blocks lie. A stretch is the run
//! of blocks up to a mark: a wait, an end, an M99 without a number, or a call that leads to a wait
//! or an end. view.rt asks which jumps leave their stretch, search_strays.rt looks into the tables.

use block_order::{ControlBlock, ProgramTables};

/// One program's blocks, their stretches, and its tables.
#[derive(Clone, Copy)]
pub(crate) struct ProgramWays<'a> {
    /// The blocks of the program.
    pub(crate) blocks: &'a [ControlBlock],
    /// The stretch of each block: how many marks stand before it.
    pub(crate) stretches: &'a [usize],
    /// The sequence numbers and loops of the blocks.
    pub(crate) tables: &'a ProgramTables,
}

impl ProgramWays<'_> {
    ghost use Rattle.std.specs.Prelude.{◌≡◌, ◌≢◌, ◌↔◌, ◌<◌, ◌-◌, ℕ, Bool, IsTrue, length, slice_index};
    ghost use Rattle.wait_order.specs.Waiting.{LeadsElsewhere, ClosesElsewhere};
    ghost use Rattle.block_order.specs.Loud.{stretch};
    ghost use Rattle.wait_order.specs.Ways.{AreWays};

    /// The stretch of the block at a place; 0 after the last block.
    pub(crate) fn stretch_at(&self, place: u32) -> usize
        ensures { result ≡ slice_index self.now.stretches.now place }
    {
        self.stretches.get(place as usize).copied().unwrap_or(0)
    }

    /// The stretch of the last block; 0 if there is none.
    fn last_stretch(&self) -> usize
        ensures { result ≡ slice_index self.now.stretches.now (length self.now.blocks.now - 1) }
    {
        self.stretches
            .get(self.blocks.len().saturating_sub(1))
            .copied()
            .unwrap_or(0)
    }

    /// Whether all blocks lie in one stretch, so that no search leads to another one.
    pub(crate) fn is_one_stretch(&self) -> bool
        ensures { (loud : ℕ → Bool) → AreWays loud self.now → (block n : ℕ) → block < length self.now.blocks.now
            → IsTrue result → LeadsElsewhere loud self.now.blocks.now block n → ⊥ }
    {
        self.last_stretch() == 0
    }

    /// Whether two blocks lie in different stretches.
    fn are_apart(&self, one: u32, other: u32) -> bool
        ensures { (loud : ℕ → Bool) → AreWays loud self.now
            → one < length self.now.blocks.now → other < length self.now.blocks.now
            → IsTrue result
            ↔ (stretch loud self.now.blocks.now one ≢ stretch loud self.now.blocks.now other) }
    {
        self.stretch_at(one) != self.stretch_at(other)
    }

    /// Whether a jump from the block to this number leads to another stretch.
    pub(crate) fn leads_elsewhere(&self, block: u32, number: u32) -> bool
        ensures { (loud : ℕ → Bool) → AreWays loud self.now → block < length self.now.blocks.now
            → IsTrue result ↔ LeadsElsewhere loud self.now.blocks.now block number }
    {
        match self.tables.target(block, number) {
            Ok(target) => self.are_apart(block, target),
            Err(_) => false,
        }
    }

    /// Whether the loop that ends at this block begins in another stretch.
    pub(crate) fn closes_elsewhere(&self, close: u32) -> bool
        ensures { (loud : ℕ → Bool) → AreWays loud self.now
            → IsTrue result ↔ ClosesElsewhere loud self.now.blocks.now close }
    {
        match self.tables.loops.head_of(close) {
            Some(head) => self.are_apart(head, close),
            None => false,
        }
    }
}
