//! The lines that stand for those of a run.
ghost use Rattle.std.specs.Prelude.{◌≡◌, ◌++◌, ◌∷◌, [], None, IfOk, OnOk};
ghost use Rattle.nose_words.specs.Told.{IsSmall};
ghost use Rattle.nose_words.specs.Written.{course_of, code_lines, line_lines, whole_line, cut_line, whole_from, written_from};

use crate::cut::{LegCut, leg_cut};
use crate::said::{NoseLine, Pace};
use crate::told::Tip;
use cycle_words::lines_of;
use nc_number::{ListOf, Point};
use plain_block::{Course, PlainBlock};
use plain_form::{FormAnswer, PlainCause, PlainFault, WrittenLine};
use plane_ways::Line;
use std::alloc::{AllocError, Global};

/// The course of a line: all that do not cut are rapids.
fn course_of(pace: Pace) -> Course
    ensures { result ≡ course_of pace }
{
    match pace {
        Pace::Cut => Course::Cut,
        Pace::Rapid | Pace::Other => Course::Rapid,
    }
}

/// Puts the empty line that stands for this line, if what is written stands in that of a code of
/// compensation alone before it: a jump may lead to that one.
fn push_code(
    alloc: Global,
    written: &mut Vec<WrittenLine>,
    line: &NoseLine,
) -> Result<(), AllocError>
    ensures { OnOk result (written.new.items ≡ written.old.items ++ code_lines line.now) }
{
    if line.behind_code {
        written.push(WrittenLine {
            blocks: ListOf::of(Vec::new(alloc)),
        })?;
    }
    Ok(())
}

/// Puts what stands for a line that is written as these blocks.
fn push_blocks(
    alloc: Global,
    written: &mut Vec<WrittenLine>,
    line: &NoseLine,
    blocks: &[PlainBlock],
) -> Result<(), AllocError>
    ensures { OnOk result (written.new.items ≡ written.old.items ++ line_lines line.now blocks.now) }
{
    let blocks = lines_of(alloc, blocks, &line.feed)?;
    written.push(WrittenLine {
        blocks: ListOf::of(blocks),
    })?;
    push_code(alloc, written, line)
}

/// Puts what stands for a line that leads to a point.
fn push_whole(
    alloc: Global,
    written: &mut Vec<WrittenLine>,
    line: &NoseLine,
    to: &Point,
) -> Result<(), AllocError>
    ensures { OnOk result (written.new.items ≡ written.old.items ++ whole_line line.now to.now) }
{
    let block = PlainBlock::straight_to(course_of(line.pace), to);
    push_blocks(alloc, written, line, &[block])
}

/// Puts what stands for a line whose leg is cut so.
fn push_cut(
    alloc: Global,
    written: &mut Vec<WrittenLine>,
    line: &NoseLine,
    cut: &LegCut,
) -> Result<(), AllocError>
    ensures { OnOk result (written.new.items ≡ written.old.items ++ cut_line line.now cut.now) }
{
    if !cut.joins {
        return push_whole(alloc, written, line, &cut.to);
    }
    let join = PlainBlock::straight_to(Course::Cut, &cut.from);
    let block = PlainBlock::straight_to(course_of(line.pace), &cut.to);
    push_blocks(alloc, written, line, &[join, block])
}

/// The lines of a run whose nose has no radius: to the points as they are programmed.
pub(crate) fn whole_answer(alloc: Global, lines: &[NoseLine]) -> Result<FormAnswer, AllocError>
    ensures { IfOk result (λ answer. answer ≡ whole_from [] lines.now) }
{
    let mut written = Vec::new(alloc);
    for line in lines {
        push_whole(alloc, &mut written, line, &line.to)?;
    }
    Ok(FormAnswer::Written(ListOf::of(written)))
}

/// The lines of a run along these legs, each in place of its own.
pub(crate) fn cut_answer(
    alloc: Global,
    tip: &Tip,
    lines: &[NoseLine],
    legs: &[Line],
) -> Result<FormAnswer, AllocError>
    requires { IsSmall tip.now }
    ensures { IfOk result (λ answer. answer ≡ written_from tip.now None [] lines.now legs.now) }
{
    let mut written = Vec::new(alloc);
    let mut at = None;
    let mut left = lines;
    let mut others = legs;
    while let Some((line, rest)) = left.split_first() {
        let Some((leg, behind)) = others.split_first() else {
            return Ok(FormAnswer::Written(ListOf::of(written)));
        };
        let Some(cut) = leg_cut(tip, &at, leg) else {
            return Ok(FormAnswer::Refused(PlainFault {
                line: line.line,
                cause: PlainCause::Range(b'X'),
            }));
        };
        push_cut(alloc, &mut written, line, &cut)?;
        at = Some(leg.to);
        left = rest;
        others = behind;
    }
    Ok(FormAnswer::Written(ListOf::of(written)))
}
