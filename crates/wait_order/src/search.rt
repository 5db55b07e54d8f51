//! Blocks that search alike for any of several sequence numbers. Where such a search may lead is in
//! search_strays.rt, which searches a tape has in searches.rt, which block is the next to search in
//! searchers.rt; these three use a search, and waiting.rt and view.rt hand it on.
ghost use Rattle.std.specs.Prelude.{◌≡◌, ◌||◌, ℕ, nat_eq, IfOk, OnOk};
ghost use Rattle.std.specs.List.{list_any};
ghost use Rattle.std.specs.HashSet.{contains};
ghost use Rattle.wait_order.specs.Searchers.{is_computed, is_call_of, is_back_to, has_back_to};

use block_order::{Control, ControlBlock};
use indexmap::IndexSet;
use nc_number::NoMemory;
use std::alloc::Global;

/// Which blocks search, and for what: each computed GOTO for every number, or each call of a
/// program for the numbers of its returns.
#[derive(Drop)]
pub(crate) enum Search {
    /// Each computed GOTO, for every number.
    Computed,
    /// Each call of the program with this O number, for the numbers of its M99.
    Calls(u16, IndexSet<u32>),
}

/// Whether the control is a GOTO to a computed number.
fn is_computed(control: &Control) -> bool
    ensures { result ≡ is_computed control.now }
{
    match control {
        Control::Goto(None) => true,
        _ => false,
    }
}

/// Whether the control is a call of that program.
fn is_call_of(called: u16, control: &Control) -> bool
    ensures { result ≡ is_call_of called control.now }
{
    match control {
        Control::Call {
            program,
            repeats: _,
        } => *program == called,
        _ => false,
    }
}

/// Puts the number of an M99, if the control is one, to the others.
fn note_return(numbers: &mut IndexSet<u32>, control: &Control) -> Result<(), NoMemory>
    ensures { OnOk result ((n : ℕ) → contains nat_eq numbers.new n
        ≡ (contains nat_eq numbers.old n || is_back_to n control.now)) }
{
    if let Control::BackTo(number) = control {
        numbers.insert(*number)?;
    }
    Ok(())
}

/// The numbers of the M99 among these blocks. The only error is out of memory.
fn return_numbers(alloc: Global, blocks: &[ControlBlock]) -> Result<IndexSet<u32>, NoMemory>
    ensures { IfOk result (λ numbers. (n : ℕ) → contains nat_eq numbers n ≡ has_back_to blocks.now n) }
{
    let mut numbers = IndexSet::new(alloc);
    for block in blocks {
        note_return(&mut numbers, &block.control)?;
    }
    Ok(numbers)
}

impl Search {
    ghost use Rattle.wait_order.specs.Searchers.{is_searcher, is_sought};
    ghost use Rattle.wait_order.specs.Searches.{IsCallSearch};

    /// The search of the calls of a program of these blocks. The only error is out of memory.
    pub(crate) fn calls(
        alloc: Global,
        called: u16,
        blocks: &[ControlBlock],
    ) -> Result<Search, NoMemory>
        ensures { IfOk result (IsCallSearch called blocks.now) }
    {
        let numbers = return_numbers(alloc, blocks)?;
        Ok(Search::Calls(called, numbers))
    }

    /// Whether a block of this control searches.
    pub(crate) fn is_searcher(&self, control: &Control) -> bool
        ensures { result ≡ is_searcher self.now control.now }
    {
        match self {
            Search::Computed => is_computed(control),
            Search::Calls(called, _) => is_call_of(*called, control),
        }
    }

    /// Whether the search may be for this sequence number.
    pub(crate) fn is_sought(&self, number: u32) -> bool
        ensures { result ≡ is_sought self.now number }
    {
        match self {
            Search::Computed => true,
            Search::Calls(_, numbers) => numbers.contains(&number),
        }
    }

    /// Whether one of these blocks searches.
    pub(crate) fn is_among(&self, blocks: &[ControlBlock]) -> bool
        ensures { result ≡ list_any (λ b. is_searcher self.now b.control) blocks.now }
    {
        blocks.iter().any(|block| self.is_searcher(&block.control))
    }
}
