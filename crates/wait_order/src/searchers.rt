//! The next block that searches, and the next one after its stretch, ahead of each place of a
//! program. A stretch is the run of blocks up to a mark: a wait, an end, an M99 without a number,
//! or a loud call. A loud program comes to a wait or an end, itself or by its calls; the others are
//! quiet. view.rt makes these lists, search_strays.rt asks them.
ghost use Rattle.std.specs.Prelude.{◌≡◌, ◌+◌, ◌<◌, ◌≤◌, ℕ, Bool, List, IfOk, length, slice_index};
ghost use Rattle.nc_number.specs.declared.limits.TheConstants.{MOST_BLOCKS};
ghost use Rattle.block_order.specs.declared.control.Control.{Control};
ghost use Rattle.wait_order.specs.Searchers.{is_searcher, behind_marks, AreNext, AreLater};
ghost use Rattle.block_order.specs.Heard.{is_kept_loud};

use crate::search::Search;
use crate::stretch::mark_count;
use block_order::{ControlBlock, LoudPrograms};
use nc_number::NoMemory;
use std::alloc::{AllocError, Global};

/// A list of `len + 1` entries, all of them `len`: the place after the last block. The only error
/// is out of memory.
fn places_behind(alloc: Global, len: usize) -> Result<Vec<usize>, NoMemory>
    requires { len ≤ MOST_BLOCKS }
    ensures { IfOk result (λ places. (length places.items ≡ len + 1) × (slice_index places.items len ≡ len)) }
{
    let places = vec![in alloc; len; len + 1]?;
    Ok(places)
}

/// For each place the first block that searches at it or after it; the place after the last block
/// if there is none. The only error is out of memory.
fn next_searchers(
    alloc: Global,
    blocks: &[ControlBlock],
    search: &Search,
) -> Result<Vec<usize>, NoMemory>
    requires { length blocks.now ≤ MOST_BLOCKS }
    ensures { IfOk result (λ next. AreNext (is_searcher search.now) blocks.now 0 next.items) }
{
    let len = blocks.len();
    let mut next = places_behind(alloc, len)?;
    for done in 0..len {
        let place = len - 1 - done;
        next[place] = if search.is_searcher(&blocks[place].control) {
            place
        } else {
            next[place + 1]
        };
    }
    Ok(next)
}

/// `later` if the block is no mark, else `next`.
fn behind_marks(marks: usize, next: usize, later: usize) -> usize
    ensures { result ≡ behind_marks marks next later }
{
    if marks == 0 { later } else { next }
}

/// For each place the first block that searches after its stretch; the place after the last block
/// if there is none. The only error is out of memory.
fn later_searchers(
    alloc: Global,
    loud: &LoudPrograms,
    blocks: &[ControlBlock],
    next: &[usize],
) -> Result<Vec<usize>, NoMemory>
    requires few { length blocks.now ≤ MOST_BLOCKS }
    requires count { length next.now ≡ length blocks.now + 1 }
    ensures { (searches : Control → Bool) → AreNext searches blocks.now 0 next.now
        → IfOk result (λ later. AreLater (is_kept_loud loud.now) searches blocks.now 0 later.items) }
{
    let len = blocks.len();
    let mut later = places_behind(alloc, len)?;
    for done in 0..len {
        let place = len - 1 - done;
        let marks = mark_count(loud, &blocks[place].control);
        later[place] = behind_marks(marks, next[place + 1], later[place + 1]);
    }
    Ok(later)
}

/// The blocks of a program that search alike, by the places ahead of which they stand.
#[derive(Drop)]
pub(crate) struct SearchersAhead {
    /// For each place the first block that searches at it or after it.
    next: Vec<usize>,
    /// For each place the first block that searches after its stretch.
    later: Vec<usize>,
}

/// The entry of a place, or 0 if the list has none.
fn value_at(list: &[usize], place: usize) -> usize
    ensures { result ≡ slice_index list.now place }
{
    list.get(place).copied().unwrap_or(0)
}

impl SearchersAhead {
    ghost use Rattle.std.specs.Prelude.{Bool};
    ghost use Rattle.wait_order.specs.Ahead.{AreAhead, IsFirstOther};
    ghost use Rattle.wait_order.specs.Stretches.{stretches_from};
    ghost use Rattle.block_order.specs.declared.control.Control.{Control};
    ghost use Rattle.block_order.specs.declared.program.ControlBlock.{ControlBlock};

    /// The lists for these blocks and this search. The only error is out of memory.
    pub(crate) fn of(
        alloc: Global,
        loud: &LoudPrograms,
        blocks: &[ControlBlock],
        search: &Search,
    ) -> Result<Self, NoMemory>
        requires { length blocks.now ≤ MOST_BLOCKS }
        ensures { IfOk result (AreAhead (is_kept_loud loud.now) (is_searcher search.now) blocks.now) }
    {
        let next = next_searchers(alloc, blocks, search)?;
        let later = later_searchers(alloc, loud, blocks, &next)?;
        Ok(SearchersAhead { next, later })
    }

    /// The first block from a place on that searches and lies in another stretch than the target;
    /// the place after the last block if there is none.
    pub(crate) fn first_other(&self, stretches: &[usize], from: usize, target: usize) -> usize
        ensures { (loud : ℕ → Bool) (searches : Control → Bool) (bs : List ControlBlock)
            → AreAhead loud searches bs self.now → stretches.now ≡ stretches_from loud 0 bs
            → from ≤ length bs → target < length bs → IsFirstOther loud searches bs from target result }
    {
        let near = value_at(&self.next, from);
        if value_at(stretches, near) == value_at(stretches, target) {
            value_at(&self.later, near)
        } else {
            near
        }
    }
}
