//! The loops of a program whose heads and ends fit together: where each ends, which one holds a
//! block, and from where a jump to a block is permitted. order.rt answers by it.
ghost use Rattle.std.specs.Prelude.{◌≡◌, ℕ, suc, ◌<◌, ◌≤◌, ◌↔◌, List, Some, IsTrue, length, slice_set, IfOk};
ghost use Rattle.nc_number.specs.declared.limits.TheConstants.{MOST_BLOCKS};
ghost use Rattle.block_order.specs.Order.{IsLoop, IsPermitted, control_at, end_of_loop};
ghost use Rattle.block_order.specs.declared.program.ControlBlock.{ControlBlock};
ghost use Rattle.block_order.specs.Fitting.{Fits, innermost, IsInside, IsEnds};

use crate::control::Control;
use crate::program::ControlBlock;
use nc_number::NoMemory;
use std::alloc::Global;

/// The loops of one program.
#[derive(Drop)]
pub struct LoopTable {
    /// At the place of each head the place of its END.
    ends: Vec<Option<u32>>,
    /// At each place the head of the innermost loop that holds it.
    inside: Vec<Option<u32>>,
}

/// The blocks from which a jump to one block is permitted: those from `low` to `high`.
#[derive(Clone, Copy, Debug, PartialEq, Eq)]
pub struct Reach {
    /// The first of these blocks.
    pub low: u32,
    /// The last of them.
    pub high: u32,
}

impl Reach {
    ghost use Rattle.block_order.specs.Table.{IsWithin};

    /// The block lies in the reach.
    pub fn holds(&self, block: u32) -> bool
        ensures { IsTrue result ↔ IsWithin self.now block }
    {
        self.low <= block && block <= self.high
    }
}

impl LoopTable {
    ghost use Rattle.block_order.specs.Table.{IsLoopTable, IsWithin};

    /// The table of a program's loops, which fit together. The only error is that memory runs out.
    pub(crate) fn of(alloc: Global, blocks: &[ControlBlock]) -> Result<LoopTable, NoMemory>
        requires few { length blocks.now ≤ MOST_BLOCKS }
        requires fit { Fits blocks.now }
        ensures { IfOk result (λ table. IsLoopTable blocks.now table) }
    {
        let mut ends: Vec<Option<u32>> = Vec::new(alloc);
        let mut inside: Vec<Option<u32>> = Vec::new(alloc);
        let mut open: Option<u32> = None;
        let mut place: u32 = 0;
        for block in blocks {
            inside.push(open)?;
            ends.push(None)?;
            open = open_behind(ends.as_mut_slice(), inside.as_slice(), block.control, place);
            place += 1;
        }
        Ok(LoopTable { ends, inside })
    }

    /// The END of the loop that begins at this block.
    pub fn end_of(&self, head: u32) -> Option<u32>
        ensures { (bs : List ControlBlock) → IsLoopTable bs self.now
            → result ≡ end_of_loop bs head }
    {
        self.ends.get(head as usize).copied().flatten()
    }

    /// The head of the innermost loop that holds this block.
    fn head_around(&self, place: u32) -> Option<u32>
        ensures { (bs : List ControlBlock) → IsLoopTable bs self.now → place < length bs
            → result ≡ innermost bs place }
    {
        self.inside.get(place as usize).copied().flatten()
    }

    /// The head of the loop that ends at this block.
    pub fn head_of(&self, close: u32) -> Option<u32>
        ensures { (bs : List ControlBlock) → IsLoopTable bs self.now
            → (head : ℕ) → (result ≡ Some head) ↔ IsLoop bs head close }
    {
        let head = self.head_around(close)?;
        if self.end_of(head) == Some(close) {
            Some(head)
        } else {
            None
        }
    }

    /// From where a jump to this block is permitted.
    pub fn reach(&self, target: u32) -> Reach
        ensures { (bs : List ControlBlock) → IsLoopTable bs self.now → target < length bs
            → (block : ℕ) → block ≤ u32.MAX → IsPermitted bs block target ↔ IsWithin result block }
    {
        match self.head_around(target) {
            Some(head) => Reach {
                low: head.saturating_add(1),
                high: self.end_of(head).unwrap_or(head),
            },
            None => Reach {
                low: 0,
                high: u32::MAX,
            },
        }
    }
}

/// The head of the innermost loop that is open behind a block; an END is noted at its head.
fn open_behind(
    ends: &mut [Option<u32>],
    inside: &[Option<u32>],
    control: Control,
    place: u32,
) -> Option<u32>
    ensures { (bs : List ControlBlock) → Fits bs → control_at bs place ≡ Some control
        → IsInside bs (suc place) inside.now → IsEnds bs place ends.old → place < length ends.old
        → (result ≡ innermost bs (suc place)) × IsEnds bs (suc place) ends.new }
{
    let open = inside.get(place as usize).copied().flatten();
    match control {
        Control::While(_) => Some(place),
        Control::Do(_) => Some(place),
        Control::EndLoop(_) => {
            let head = open?;
            note_end(ends, head, place);
            inside.get(head as usize).copied().flatten()
        }
        _ => open,
    }
}

/// Notes the END of the loop that begins at this head.
fn note_end(ends: &mut [Option<u32>], head: u32, end: u32)
    ensures { ends.new ≡ slice_set ends.old head (Some end) }
{
    let at = head as usize;
    if at < ends.len() {
        ends[at] = Some(end);
    }
}
