//! One program of a tape, the main one or a loud one, and its first block that may pass a wait.
//! waiting.rt calls `stray_line`. What a single jump of it leads to is in ways.rt. A stretch is the
//! run of blocks up to a mark: a wait, an end, an M99 without a number, or a loud call. A loud
//! program comes to a wait or an end, itself or by its calls; the others are quiet.
ghost use Rattle.std.specs.Prelude.{◌↔◌, ◌<◌, ℕ, Bool, IsTrue, length};
ghost use Rattle.nc_number.specs.declared.limits.TheConstants.{MOST_BLOCKS};
ghost use Rattle.block_order.specs.Order.{blocks};
ghost use Rattle.wait_order.specs.Waiting.{ReturnsElsewhere};
ghost use Rattle.wait_order.specs.Ways.{AreWays};

use crate::search::Search;
use crate::search_strays::first_search_stray;
use crate::searchers::SearchersAhead;
use crate::searches::is_short;
use crate::ways::ProgramWays;
use block_order::{Control, ControlBlock, ControlProgram, LoudPrograms};
use nc_number::{NoMemory, lesser};
use std::alloc::Global;

/// A program, among the programs of its tape.
#[derive(Clone, Copy)]
pub(crate) struct ProgramView<'a> {
    /// All programs of the tape.
    pub(crate) programs: &'a [ControlProgram],
    /// The places of the programs, and which of them are loud.
    pub(crate) loud: &'a LoudPrograms,
    /// The O number of the main program.
    pub(crate) main: u16,
    /// The program's own O number.
    pub(crate) number: u16,
    /// Its own blocks and their tables.
    pub(crate) ways: ProgramWays<'a>,
}

/// Whether one of the called blocks is an M99 with a number that leads from the block at `place` to
/// another stretch.
fn returns_elsewhere(ways: &ProgramWays, place: u32, called: &[ControlBlock]) -> bool
    ensures { (loud : ℕ → Bool) → AreWays loud ways.now → place < length ways.now.blocks.now
        → IsTrue result ↔ ReturnsElsewhere loud ways.now.blocks.now place called.now }
{
    if ways.is_one_stretch() {
        return false;
    }
    for block in called {
        if let Control::BackTo(number) = block.control {
            if ways.leads_elsewhere(place, number) {
                return true;
            }
        }
    }
    false
}

impl ProgramView<'_> {
    ghost use Rattle.std.specs.Prelude.{◌≤◌, IfOk};
    ghost use Rattle.block_order.specs.Labels.{Counts};
    ghost use Rattle.block_order.specs.Loud.{loud};
    ghost use Rattle.wait_order.specs.Searchers.{is_searcher, is_sought};
    ghost use Rattle.wait_order.specs.Searches.{AreSearches, IsSearchStrayBelow};
    ghost use Rattle.wait_order.specs.Waiting.{CallsElsewhere, IsShort, IsSearchStray, IsFixedStray, IsFixedStrayAt, IsStray, IsStrayLine, IsLeast, HasRisingLines};
    ghost use Rattle.wait_order.specs.View.{IsView};

    /// Whether a return from the called program, if that is quiet and short, leads from the call at
    /// `place` to another stretch.
    fn calls_elsewhere(&self, place: u32, called: u16) -> bool
        requires view { IsView self.now }
        requires within { place < length self.now.ways.blocks.now }
        ensures { IsTrue result ↔ (IsShort (blocks self.now.programs.now called)
            × CallsElsewhere self.now.programs.now self.now.number place called) }
    {
        let blocks = self.loud.blocks_of(self.programs, called);
        !self.loud.is_loud(called)
            && is_short(blocks)
            && returns_elsewhere(&self.ways, place, blocks)
    }

    /// Whether the block at `place`, of this control, may pass a wait without a search for several
    /// numbers: it may lead to another stretch, or is an M99 with a number outside the main
    /// program.
    fn is_fixed_stray(&self, place: u32, control: &Control) -> bool
        requires view { IsView self.now }
        requires within { place < length self.now.ways.blocks.now }
        ensures { IsTrue result ↔ IsFixedStray self.now.programs.now self.now.number place control.now }
    {
        match control {
            Control::Goto(Some(number)) => self.ways.leads_elsewhere(place, *number),
            Control::EndLoop(_) => self.ways.closes_elsewhere(place),
            Control::Call {
                program,
                repeats: _,
            } => self.calls_elsewhere(place, *program),
            Control::BackTo(number) => {
                self.number != self.main || self.ways.leads_elsewhere(place, *number)
            }
            _ => false,
        }
    }

    /// The place of the first block that may pass a wait without a search for several numbers.
    fn first_fixed_stray(&self) -> Option<u32>
        requires view { IsView self.now }
        requires few { length self.now.ways.blocks.now ≤ MOST_BLOCKS }
        ensures { IsLeast (IsFixedStrayAt self.now.programs.now self.now.number) result }
    {
        let mut place: u32 = 0;
        for block in self.ways.blocks {
            if self.is_fixed_stray(place, &block.control) {
                return Some(place);
            }
            place += 1;
        }
        None
    }

    /// The place of the first block of this search that may lead to another stretch. The only error
    /// is out of memory.
    fn first_of_search(&self, alloc: Global, search: &Search) -> Result<Option<u32>, NoMemory>
        requires view { IsView self.now }
        requires few { length self.now.ways.blocks.now ≤ MOST_BLOCKS }
        ensures { IfOk result (IsLeast (IsSearchStray (loud self.now.programs.now)
            (is_searcher search.now) (is_sought search.now) self.now.ways.blocks.now)) }
    {
        if self.ways.is_one_stretch() {
            return Ok(None);
        }
        if !search.is_among(self.ways.blocks) {
            return Ok(None);
        }
        let ahead = SearchersAhead::of(alloc, self.loud, self.ways.blocks, search)?;
        let first = first_search_stray(&self.ways, &ahead, search);
        Ok(first)
    }

    /// The place of the first block of any of these searches that may lead to another stretch. The
    /// only error is out of memory.
    fn first_of_searches(&self, alloc: Global, searches: &[Search]) -> Result<Option<u32>, NoMemory>
        requires view { IsView self.now }
        requires few { length self.now.ways.blocks.now ≤ MOST_BLOCKS }
        ensures { IfOk result (IsLeast (IsSearchStrayBelow (loud self.now.programs.now) searches.now
            (length searches.now) self.now.ways.blocks.now)) }
    {
        let mut first = None;
        for search in searches {
            let place = self.first_of_search(alloc, search)?;
            first = lesser(first, place);
        }
        Ok(first)
    }

    /// The place of the first block that may pass a wait. The only error is out of memory.
    fn first_stray(&self, alloc: Global, searches: &[Search]) -> Result<Option<u32>, NoMemory>
        requires view { IsView self.now }
        requires few { length self.now.ways.blocks.now ≤ MOST_BLOCKS }
        requires searches { AreSearches self.now.programs.now searches.now }
        requires counts { Counts self.now.programs.now self.now.number }
        ensures { IfOk result (IsLeast (IsStray self.now.programs.now self.now.number)) }
    {
        let fixed = self.first_fixed_stray();
        let searching = self.first_of_searches(alloc, searches)?;
        let first = lesser(fixed, searching);
        Ok(first)
    }

    /// The line of the first block that may pass a wait, which stands at this place; `None` for no
    /// place.
    fn line_of(&self, place: Option<u32>) -> Option<u32>
        requires view { IsView self.now }
        requires rising { HasRisingLines self.now.ways.blocks.now }
        requires first { IsLeast (IsStray self.now.programs.now self.now.number) place }
        ensures { IsLeast (IsStrayLine self.now.programs.now self.now.number) result }
    {
        match place {
            Some(place) => match self.ways.blocks.get(place as usize) {
                Some(block) => Some(block.line),
                None => None,
            },
            None => None,
        }
    }

    /// The line of the first block that may pass a wait. The only error is out of memory.
    pub(crate) fn stray_line(
        &self,
        alloc: Global,
        searches: &[Search],
    ) -> Result<Option<u32>, NoMemory>
        requires view { IsView self.now }
        requires few { length self.now.ways.blocks.now ≤ MOST_BLOCKS }
        requires searches { AreSearches self.now.programs.now searches.now }
        requires counts { Counts self.now.programs.now self.now.number }
        requires rising { HasRisingLines self.now.ways.blocks.now }
        ensures { IfOk result (IsLeast (IsStrayLine self.now.programs.now self.now.number)) }
    {
        let first = self.first_stray(alloc, searches)?;
        let line = self.line_of(first);
        Ok(line)
    }
}
