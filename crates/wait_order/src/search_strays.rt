//! The first block of a program that may lead to another stretch, of those that search alike. A
//! stretch is the run of blocks up to a mark: a wait, an end, an M99 without a number, or a call
//! that leads to a wait or an end. Places are indices of blocks. view.rt calls `first_search_stray`
//! for each search of the tape.
ghost use Rattle.std.specs.Prelude.{◌≡◌, ◌↔◌, Some, ◌<◌, ◌≤◌, ℕ, Bool, length};
ghost use Rattle.nc_number.specs.declared.limits.TheConstants.{MOST_BLOCKS};
ghost use Rattle.wait_order.specs.Ahead.{AreAhead};
ghost use Rattle.block_order.specs.Places.{IsNumbered};
ghost use Rattle.wait_order.specs.Searchers.{is_sought};
ghost use Rattle.wait_order.specs.Waiting.{IsLedTo, IsOtherIn, MayLeadTo, IsSearchStray, IsLeast};
ghost use Rattle.wait_order.specs.Ways.{AreWays};
ghost use Rattle.block_order.specs.declared.control.Control.{Control};

use crate::search::Search;
use crate::searchers::SearchersAhead;
use crate::ways::ProgramWays;
use block_order::Reach;
use nc_number::lesser;

/// The first block that searches, from `low` up to and without `high`, from where the target is
/// within reach and lies in another stretch.
fn first_in(
    ways: &ProgramWays,
    ahead: &SearchersAhead,
    low: u32,
    high: u32,
    reach: Reach,
    target: u32,
) -> Option<u32>
    requires { length ways.now.blocks.now ≤ MOST_BLOCKS }
    ensures { (loud : ℕ → Bool) (searches : Control → Bool) → AreWays loud ways.now
        → AreAhead loud searches ways.now.blocks.now ahead.now → target < length ways.now.blocks.now
        → IsLeast (IsOtherIn loud searches ways.now.blocks.now low high reach target) result }
{
    let from = low.max(reach.low) as usize;
    let len = ways.blocks.len();
    if from >= len {
        return None;
    }
    let first = ahead.first_other(ways.stretches, from, target as usize);
    if first < len && first < high as usize && first <= reach.high as usize {
        Some(first as u32)
    } else {
        None
    }
}

/// The first block that searches and that a search for this number leads to the target, which lies
/// in another stretch. A search begins after its block and goes on at the program's start.
fn first_to(ways: &ProgramWays, ahead: &SearchersAhead, number: u32, target: u32) -> Option<u32>
    requires { length ways.now.blocks.now ≤ MOST_BLOCKS }
    ensures { (loud : ℕ → Bool) (searches : Control → Bool) → AreWays loud ways.now
        → AreAhead loud searches ways.now.blocks.now ahead.now → target < length ways.now.blocks.now
        → IsNumbered ways.now.blocks.now target number
        → IsLeast (IsLedTo loud searches ways.now.blocks.now number target) result }
{
    let finders = ways.tables.index.finders(number, target);
    let reach = ways.tables.loops.reach(target);
    let before = first_in(ways, ahead, finders.low, finders.high, reach, target);
    match finders.around {
        Some(low) => {
            let around = first_in(ways, ahead, low, u32::MAX, reach, target);
            lesser(before, around)
        }
        None => before,
    }
}

/// The first block that searches and may be led to the target, whose sequence number is given, in
/// another stretch; `None` also if the target has no number.
fn first_of_block(
    ways: &ProgramWays,
    ahead: &SearchersAhead,
    search: &Search,
    sequence: Option<u32>,
    target: u32,
) -> Option<u32>
    requires { length ways.now.blocks.now ≤ MOST_BLOCKS }
    ensures { (loud : ℕ → Bool) (searches : Control → Bool) → AreWays loud ways.now
        → AreAhead loud searches ways.now.blocks.now ahead.now → target < length ways.now.blocks.now
        → ((n : ℕ) → IsNumbered ways.now.blocks.now target n ↔ (sequence ≡ Some n))
        → IsLeast (MayLeadTo loud searches (is_sought search.now) ways.now.blocks.now target) result }
{
    match sequence {
        Some(number) => {
            if search.is_sought(number) {
                first_to(ways, ahead, number, target)
            } else {
                None
            }
        }
        None => None,
    }
}

/// The first block of the program that searches and may lead to another stretch.
pub(crate) fn first_search_stray(
    ways: &ProgramWays,
    ahead: &SearchersAhead,
    search: &Search,
) -> Option<u32>
    requires { length ways.now.blocks.now ≤ MOST_BLOCKS }
    ensures { (loud : ℕ → Bool) (searches : Control → Bool) → AreWays loud ways.now
        → AreAhead loud searches ways.now.blocks.now ahead.now
        → IsLeast (IsSearchStray loud searches (is_sought search.now) ways.now.blocks.now) result }
{
    let mut first = None;
    let mut place: u32 = 0;
    for block in ways.blocks {
        let nearest = first_of_block(ways, ahead, search, block.sequence, place);
        first = lesser(first, nearest);
        place += 1;
    }
    first
}
