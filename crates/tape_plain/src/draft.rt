//! The lines of a text that give way to plain blocks, and how many blocks the tape has with them.
ghost use Rattle.std.specs.Prelude.{◌≡◌, ◌++◌, ◌∷◌, [], OnOk, IfOk, Result};
ghost use Rattle.std.specs.List.{flat_map};
ghost use Rattle.tape_plain.specs.Draft.{grown, line_edit, step_edits, edits_of, step_size, steps_size, size_of};

use crate::block_text::blocks_text;
use crate::comments::comment_at;
use crate::fault::PlainTapeFault;
use line_edits::Edit;
use nc_number::{ByteList, MOST_BLOCKS, NoMemory};
use plain_blocks::{Replaced, Step, StepList};
use std::alloc::Global;

/// Puts the edit of a line: its blocks stand in its place, with its comments.
fn push_edit(
    alloc: Global,
    edits: &mut Vec<Edit>,
    comments: &[ByteList],
    line: &Replaced,
) -> Result<(), NoMemory>
    ensures { OnOk result (edits.new.items ≡ edits.old.items ++ line_edit comments.now line.now ∷ []) }
{
    let comment = comment_at(comments, line.line);
    let text = blocks_text(
        alloc,
        line.line,
        line.sequence,
        comment,
        line.blocks.as_slice(),
    )?;
    let new = ByteList::of(text);
    edits.push(Edit {
        line: line.line,
        new,
    })?;
    Ok(())
}

/// Puts the edit of what becomes of a block; none if its line stays.
fn push_step(
    alloc: Global,
    edits: &mut Vec<Edit>,
    comments: &[ByteList],
    step: &Step,
) -> Result<(), NoMemory>
    ensures { OnOk result (edits.new.items ≡ edits.old.items ++ step_edits comments.now step.now) }
{
    match step {
        Step::Kept => Ok(()),
        Step::Written(line) => push_edit(alloc, edits, comments, line),
    }
}

/// Puts the edits of what becomes of the blocks of a program.
fn push_steps(
    alloc: Global,
    edits: &mut Vec<Edit>,
    comments: &[ByteList],
    steps: &[Step],
) -> Result<(), NoMemory>
    ensures { OnOk result (edits.new.items ≡ edits.old.items ++ flat_map (step_edits comments.now) steps.now) }
{
    for step in steps {
        push_step(alloc, edits, comments, step)?;
    }
    Ok(())
}

/// The edits of what becomes of the blocks of a tape whose lines have these comments, in the order of
/// their lines.
pub(crate) fn edits_of(
    alloc: Global,
    comments: &[ByteList],
    all: &[StepList],
) -> Result<Vec<Edit>, NoMemory>
    ensures { IfOk result (λ edits. edits.items ≡ edits_of comments.now all.now) }
{
    let mut edits = Vec::new(alloc);
    for steps in all {
        push_steps(alloc, &mut edits, comments, steps.as_slice())?;
    }
    Ok(edits)
}

/// The count with so many blocks more.
fn grown(count: usize, blocks: usize) -> usize
    ensures { result ≡ grown count blocks }
{
    count.saturating_add(blocks)
}

/// The count of blocks with what becomes of one more.
fn step_size(count: usize, step: &Step) -> Result<usize, PlainTapeFault>
    ensures { result ≡ step_size count step.now }
{
    match step {
        Step::Kept => Ok(grown(count, 1)),
        Step::Written(line) => {
            let count = grown(count, line.blocks.as_slice().len());
            if MOST_BLOCKS < count {
                Err(PlainTapeFault::TooLarge(line.line))
            } else {
                Ok(count)
            }
        }
    }
}

/// The count of blocks with what becomes of those of a program.
fn steps_size(count: usize, steps: &[Step]) -> Result<usize, PlainTapeFault>
    ensures { result ≡ steps_size count steps.now }
{
    let mut size = count;
    for step in steps {
        size = match step_size(size, step) {
            Ok(size) => size,
            Err(fault) => return Err(fault),
        };
    }
    Ok(size)
}

/// The count of blocks with what becomes of those of a tape.
pub(crate) fn size_of(all: &[StepList]) -> Result<usize, PlainTapeFault>
    ensures { result ≡ size_of 0 all.now }
{
    let mut size = 0;
    for steps in all {
        size = match steps_size(size, steps.as_slice()) {
            Ok(size) => size,
            Err(fault) => return Err(fault),
        };
    }
    Ok(size)
}
