//! Which blocks of a tape search for any of several numbers: the computed GOTOs, and the calls of
//! each long quiet program. A loud program comes to a wait or an end, itself or by its calls; the
//! others are quiet. waiting.rt calls `searches`, view.rt `is_short`.
ghost use Rattle.std.specs.Prelude.{◌≡◌, ◌↔◌, ◌+◌, ℕ, List, Some, IsTrue, IfOk, OnOk, slice_get};
ghost use Rattle.wait_order.specs.Waiting.{IsShort};
ghost use Rattle.wait_order.specs.Searches.{IsLongQuiet, AreSearches, AreSearchesBelow};
ghost use Rattle.block_order.specs.Heard.{AreFlagsOf};
ghost use Rattle.wait_order.specs.TapeFaults.{IsProgramOf, AreProgramsOf};
ghost use Rattle.block_order.specs.declared.program.ControlProgram.{ControlProgram};

use crate::search::Search;
use block_order::{ControlBlock, ControlProgram, LoudPrograms};
use nc_number::NoMemory;
use std::alloc::Global;

/// A program of at least so many blocks is long: the numbers of its returns are gathered once for
/// all its calls. The specs have this bound as 64: `IsShort` in Waiting, `IsLongQuiet` in Searches.
const MANY_BLOCKS: usize = 65;

/// Whether these are at most 64 blocks, so few that each call of their program looks at all of
/// them.
pub(crate) fn is_short(blocks: &[ControlBlock]) -> bool
    ensures { IsTrue result ↔ IsShort blocks.now }
{
    blocks.len() < MANY_BLOCKS
}

/// Whether the program comes to no wait and no end and has more than 64 blocks.
fn is_long_quiet(loud: &LoudPrograms, program: &ControlProgram) -> bool
    ensures { (tape : List ControlProgram) → AreFlagsOf tape loud.now → IsProgramOf tape program.now
        → IsTrue result ↔ IsLongQuiet tape program.now.number }
{
    !is_short(program.blocks.as_slice()) && !loud.is_loud(program.number)
}

/// Adds the search of the program's calls at the end, if it is a long quiet one. The only error is
/// out of memory.
fn note_calls(
    alloc: Global,
    loud: &LoudPrograms,
    program: &ControlProgram,
    searches: &mut Vec<Search>,
) -> Result<(), NoMemory>
    ensures { (tape : List ControlProgram) (n : ℕ) → AreFlagsOf tape loud.now → IsProgramOf tape program.now
        → slice_get tape n ≡ Some program.now → AreSearchesBelow tape n searches.old.items
        → OnOk result (AreSearchesBelow tape (n + 1) searches.new.items) }
{
    if is_long_quiet(loud, program) {
        let search = Search::calls(alloc, program.number, program.blocks.as_slice())?;
        searches.push(search)?;
    }
    Ok(())
}

/// The searches of a tape without programs: that of the computed GOTOs alone. The only error is out
/// of memory.
fn computed_alone(alloc: Global) -> Result<Vec<Search>, NoMemory>
    ensures { (tape : List ControlProgram) → IfOk result (λ searches. AreSearchesBelow tape 0 searches.items) }
{
    let mut searches = Vec::new(alloc);
    searches.push(Search::Computed)?;
    Ok(searches)
}

/// The searches of a tape: the computed GOTOs, and the calls of each long quiet program. The only
/// error is out of memory.
pub(crate) fn searches(
    alloc: Global,
    programs: &[ControlProgram],
    loud: &LoudPrograms,
) -> Result<Vec<Search>, NoMemory>
    requires known { AreFlagsOf programs.now loud.now }
    requires own { AreProgramsOf programs.now }
    ensures { IfOk result (λ searches. AreSearches programs.now searches.items) }
{
    let mut searches = computed_alone(alloc)?;
    for program in programs {
        note_calls(alloc, loud, program, &mut searches)?;
    }
    Ok(searches)
}
