//! The least line of each program and of the quiet ones that are called from there, directly or
//! through others.
//!
//! A quiet program comes to no wait and no end. A path may come to any of its blocks, and all that
//! is opened from a block by calls of quiet programs is in the part of that block. For this crate
//! alone: listing.rt asks for these lines.
ghost use Rattle.std.specs.Prelude.{◌≡◌, ◌≢◌, ◌↔◌, ℕ, true, Some, None, Option, IsTrue, IfOk, OnOk};
ghost use Rattle.block_order.specs.Loud.{loud};
ghost use Rattle.block_order.specs.Order.{blocks};
ghost use Rattle.part_lines.specs.Lines.{seen_line};
ghost use Rattle.part_lines.specs.Pieces.{quiet_known, AreFound, AreQuietLines, IsBelow, IsClosed, IsClosedAt};

use crate::callers::quiet_callers;
use crate::lines::BlockLines;
use block_order::{BlockOrder, Callers, Control};
use indexmap::IndexMap;
use nc_number::{NoMemory, lesser};
use std::alloc::Global;

/// The least line that was found of each program that has one.
#[derive(Drop)]
pub(crate) struct QuietLines {
    /// By the O number of a program its line.
    lines: IndexMap<u16, u32>,
}

impl QuietLines {
    /// Nothing is found yet.
    fn new(alloc: Global) -> Self
        ensures { (q : ℕ) → quiet_known result q ≡ None }
    {
        QuietLines {
            lines: IndexMap::new(alloc),
        }
    }

    /// The least line that was found of the program.
    pub(crate) fn get(&self, program: u16) -> Option<u32>
        ensures { result ≡ quiet_known self.now program }
    {
        self.lines.get(&program).copied()
    }

    /// Keeps the line of a program, in place of what was found before.
    fn keep(&mut self, program: u16, line: u32) -> Result<(), NoMemory>
        ensures kept { OnOk result (quiet_known self.new program ≡ Some line) }
        ensures others { (q : ℕ) → q ≢ program → quiet_known self.new q ≡ quiet_known self.old q }
    {
        self.lines.insert(program, line)?;
        Ok(())
    }

    /// The line that is seen at a block: its own, or that of the quiet program that it calls if
    /// that is less.
    pub(crate) fn seen(
        &self,
        order: &BlockOrder,
        own: Option<u32>,
        control: &Control,
    ) -> Option<u32>
        ensures { result ≡ seen_line (loud order.now) (quiet_known self.now) own control.now }
    {
        match *control {
            Control::Call { program, .. } if !order.is_loud(program) => lesser(
                own,
                self.get(program),
            ),
            _ => own,
        }
    }
}

/// Whether what was found is no greater than the line. Without a line this is so; if nothing was
/// found, only without a line.
fn is_below(found: Option<u32>, line: Option<u32>) -> bool
    ensures { IsTrue result ↔ IsBelow found line }
{
    match (found, line) {
        (_, None) => true,
        (None, Some(_)) => false,
        (Some(found), Some(line)) => found <= line,
    }
}

/// Whether no block of a program has or calls a line that is less than what was found of it.
fn is_closed_at<L: BlockLines>(
    order: &BlockOrder,
    lines: &L,
    found: &QuietLines,
    program: u16,
) -> bool
    ensures { IsTrue result → IsClosedAt order.now (L.line lines.now) (quiet_known found.now) program }
{
    let least = found.get(program);
    let blocks = order.blocks(program);
    for place in 0..blocks.len() {
        let block = &blocks[place];
        let seen = found.seen(order, lines.line(program, place), &block.control);
        if !is_below(least, seen) {
            return false;
        }
    }
    true
}

/// Whether no block of any program has or calls a line that is less than what was found of its
/// program.
fn is_closed<L: BlockLines>(order: &BlockOrder, lines: &L, found: &QuietLines) -> bool
    ensures { IsTrue result → IsClosed order.now (L.line lines.now) (quiet_known found.now) }
{
    for program in order.as_slice() {
        if !is_closed_at(order, lines, found, program.number) {
            return false;
        }
    }
    true
}

/// Lowers what was found of a program to the least line of its blocks and of what they call.
fn lower<L: BlockLines>(
    order: &BlockOrder,
    lines: &L,
    found: &mut QuietLines,
    program: u16,
) -> Result<(), NoMemory>
    requires { AreFound order.now (L.line lines.now) (quiet_known found.old) }
    ensures { OnOk result (AreFound order.now (L.line lines.now) (quiet_known found.new)) }
{
    let mut least = found.get(program);
    let blocks = order.blocks(program);
    for place in 0..blocks.len() {
        let block = &blocks[place];
        least = lesser(
            least,
            found.seen(order, lines.line(program, place), &block.control),
        );
    }
    match least {
        Some(line) => found.keep(program, line),
        None => Ok(()),
    }
}

/// Lowers what was found of every program, from the last one to the first.
fn lower_all<L: BlockLines>(
    order: &BlockOrder,
    lines: &L,
    found: &mut QuietLines,
) -> Result<(), NoMemory>
    requires { AreFound order.now (L.line lines.now) (quiet_known found.old) }
    ensures { OnOk result (AreFound order.now (L.line lines.now) (quiet_known found.new)) }
{
    for program in order.as_slice().iter().rev() {
        lower(order, lines, found, program.number)?;
    }
    Ok(())
}

/// Lowers a program of which nothing was found so far. The answer is whether something is found of
/// it now.
fn find<L: BlockLines>(
    order: &BlockOrder,
    lines: &L,
    found: &mut QuietLines,
    program: u16,
) -> Result<bool, NoMemory>
    requires { AreFound order.now (L.line lines.now) (quiet_known found.old) }
    ensures { OnOk result (AreFound order.now (L.line lines.now) (quiet_known found.new)) }
{
    if found.get(program).is_some() {
        return Ok(false);
    }
    lower(order, lines, found, program)?;
    Ok(found.get(program).is_some())
}

/// Lowers those of these programs of which nothing was found so far. Those of which something is
/// found only now are put behind the others in `fresh`.
fn find_each<L: BlockLines>(
    order: &BlockOrder,
    lines: &L,
    found: &mut QuietLines,
    these: &[u16],
    fresh: &mut Vec<u16>,
) -> Result<(), NoMemory>
    requires { AreFound order.now (L.line lines.now) (quiet_known found.old) }
    ensures { OnOk result (AreFound order.now (L.line lines.now) (quiet_known found.new)) }
{
    for program in these {
        if find(order, lines, found, *program)? {
            fresh.push(*program)?;
        }
    }
    Ok(())
}

/// Goes from the programs of which something was found last to those that call them, and on to the
/// callers of what is found there.
fn find_callers<L: BlockLines>(
    order: &BlockOrder,
    lines: &L,
    callers: &Callers,
    found: &mut QuietLines,
    fresh: &mut Vec<u16>,
) -> Result<(), NoMemory>
    requires { AreFound order.now (L.line lines.now) (quiet_known found.old) }
    ensures { OnOk result (AreFound order.now (L.line lines.now) (quiet_known found.new)) }
{
    for _program in order.as_slice() {
        let Some(program) = fresh.pop() else {
            return Ok(());
        };
        find_each(order, lines, found, callers.of_program(program), fresh)?;
    }
    Ok(())
}

/// What is found program by program, as they stand in the text: of each all that call it are found
/// before the next one. If the lines rise along the text, the line by which a program is found
/// is its least.
fn found_in_order<L: BlockLines>(
    alloc: Global,
    order: &BlockOrder,
    lines: &L,
) -> Result<QuietLines, NoMemory>
    ensures { IfOk result (λ found. AreFound order.now (L.line lines.now) (quiet_known found)) }
{
    let callers = quiet_callers(alloc, order)?;
    let mut found = QuietLines::new(alloc);
    let mut fresh: Vec<u16> = Vec::new(alloc);
    for program in order.as_slice() {
        let number = program.number;
        find_each(order, lines, &mut found, &[number], &mut fresh)?;
        find_callers(order, lines, &callers, &mut found, &mut fresh)?;
    }
    Ok(found)
}

/// The least line of each program and of the quiet ones that are called from there.
///
/// What is found in the order of the text mostly is it. Else each round brings the lines a call
/// further up, so there are fewer rounds than programs. A round more would be refused as if memory
/// ran out; none is needed.
pub(crate) fn quiet_lines<L: BlockLines>(
    alloc: Global,
    order: &BlockOrder,
    lines: &L,
) -> Result<QuietLines, NoMemory>
    ensures { IfOk result (λ found. AreQuietLines order.now (L.line lines.now) (quiet_known found)) }
{
    let mut found = found_in_order(alloc, order, lines)?;
    for _program in order.as_slice() {
        if is_closed(order, lines, &found) {
            return Ok(found);
        }
        lower_all(order, lines, &mut found)?;
    }
    Err(NoMemory)
}
