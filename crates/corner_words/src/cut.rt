//! What is cut of the lines of a run: to each corner's start, and to its end.
ghost use Rattle.std.specs.Prelude.{◌≡◌, [], IfOk};
ghost use Rattle.corner_form.specs.Cuts.{blocks_of};
ghost use Rattle.corner_words.specs.Cut.{kind_of, fault_cause, corner_of, are_positions, blocks_at, corner_cut, line_cut, blocks_by, end_behind, written_line, cut_from};

use crate::said::{CornerWord, RunLine};
use corner_form::{Corner, CornerBlocks, CornerFault, CornerKind, corner_blocks};
use cycle_words::lines_of;
use nc_number::{ListOf, Point};
use plain_block::{Course, PlainBlock};
use plain_form::{FormAnswer, PlainCause, PlainFault, WrittenLine};
use std::alloc::{AllocError, Global};

/// What is cut of a line.
#[derive(Clone, Copy, Debug, PartialEq, Eq)]
pub(crate) enum LineCut {
    /// The line to its end.
    Whole,
    /// The line to its corner's start, and the corner.
    Cornered(CornerBlocks),
}

/// What a corner of this letter is.
fn kind_of(letter: u8) -> CornerKind
    ensures { result ≡ kind_of letter }
{
    if letter == b'r' {
        CornerKind::Rounding
    } else {
        CornerKind::Chamfer
    }
}

/// What the fault of a corner is for the word that names it.
fn fault_cause(letter: u8, fault: CornerFault) -> PlainCause
    ensures { result ≡ fault_cause letter fault }
{
    match fault {
        CornerFault::TooLarge => PlainCause::Range(letter),
        CornerFault::NoTurn | CornerFault::TooLong | CornerFault::Inexact => PlainCause::Corner,
    }
}

/// The corner between a line from where the tool is and the next one.
fn corner_of(tool: &Point, line: &RunLine, word: &CornerWord, next: &RunLine) -> Corner
    ensures { result ≡ corner_of tool.now line.now word.now next.now }
{
    Corner {
        from: *tool,
        at: line.to,
        to: next.to,
        kind: kind_of(word.letter),
        size: word.size,
    }
}

/// Whether the points of a corner may be positions.
fn are_positions(corner: &Corner) -> bool
    ensures { result ≡ are_positions corner.now }
{
    corner.from.is_position() && corner.at.is_position() && corner.to.is_position()
}

/// The blocks of a corner that this letter names, or why there are none.
fn blocks_at(letter: u8, corner: &Corner) -> Result<CornerBlocks, PlainCause>
    ensures { result ≡ blocks_at letter corner.now }
{
    if !are_positions(corner) {
        return Err(PlainCause::Range(b'X'));
    }
    match corner_blocks(corner) {
        Ok(blocks) => Ok(blocks),
        Err(fault) => Err(fault_cause(letter, fault)),
    }
}

/// What is cut of a line with a corner before the first of the lines behind it.
fn corner_cut(
    tool: &Point,
    line: &RunLine,
    word: &CornerWord,
    rest: &[RunLine],
) -> Result<LineCut, PlainCause>
    ensures { result ≡ corner_cut tool.now line.now word.now rest.now }
{
    let [next, ..] = rest else {
        return Err(PlainCause::Corner);
    };
    match blocks_at(word.letter, &corner_of(tool, line, word, next)) {
        Ok(blocks) => Ok(LineCut::Cornered(blocks)),
        Err(cause) => Err(cause),
    }
}

/// What is cut of a line, from where the tool is, or why it can't be.
fn line_cut(tool: &Point, line: &RunLine, rest: &[RunLine]) -> Result<LineCut, PlainCause>
    ensures { result ≡ line_cut tool.now line.now rest.now }
{
    match &line.corner {
        None => Ok(LineCut::Whole),
        Some(word) => corner_cut(tool, line, word, rest),
    }
}

/// Where the tool is behind what is cut of a line.
fn end_behind(cut: &LineCut, line: &RunLine) -> Point
    ensures { result ≡ end_behind cut.now line.now }
{
    match cut {
        LineCut::Whole => line.to,
        LineCut::Cornered(blocks) => blocks.second.point_after(&line.to),
    }
}

/// The line that is written of what is cut, with the feed of its block.
fn written_line(alloc: Global, cut: &LineCut, line: &RunLine) -> Result<WrittenLine, AllocError>
    ensures { IfOk result (λ written. written ≡ written_line cut.now line.now) }
{
    let blocks = match cut {
        LineCut::Whole => {
            let whole = [PlainBlock::straight_to(Course::Cut, &line.to)];
            lines_of(alloc, &whole, &line.feed)?
        }
        LineCut::Cornered(blocks) => {
            let both = [blocks.first, blocks.second];
            lines_of(alloc, &both, &line.feed)?
        }
    };
    Ok(WrittenLine {
        blocks: ListOf::of(blocks),
    })
}

/// The answer to the lines of a run, from a point.
pub(crate) fn cut_answer(
    alloc: Global,
    start: &Point,
    lines: &[RunLine],
) -> Result<FormAnswer, AllocError>
    ensures { IfOk result (λ answer. answer ≡ cut_from start.now [] lines.now) }
{
    let mut written = Vec::new(alloc);
    let mut tool = *start;
    let mut left = lines;
    while let Some((line, rest)) = left.split_first() {
        let cut = match line_cut(&tool, line, rest) {
            Ok(cut) => cut,
            Err(cause) => {
                return Ok(FormAnswer::Refused(PlainFault {
                    line: line.line,
                    cause,
                }));
            }
        };
        written.push(written_line(alloc, &cut, line)?)?;
        tool = end_behind(&cut, line);
        left = rest;
    }
    Ok(FormAnswer::Written(ListOf::of(written)))
}
