//! The text of the plain blocks of a part, and the lines that it replaces. expand.rt takes the
//! edits of all parts from here.
ghost use Rattle.std.specs.Prelude.{◌≡◌, ◌++◌, ◌∷◌, [], Some, IfOk, OnOk, map};
ghost use Rattle.std.specs.List.{flat_map};
ghost use Rattle.tape_expand.specs.BlockText.{code_text, axis_text, feed_text, block_text, blocks_text, part_text};
ghost use Rattle.tape_expand.specs.Replaced.{line_removal, edits_of};

use cycle_form::Part;
use line_edits::{Edit, push_all};
use nc_number::{ByteList, Value, length_text, text};
use rough_cycle::PlainBlock;
use std::alloc::{AllocError, Global};

/// The code of a block: G01 if it cuts, else G00. Each block names its own code, so no block
/// depends on the one before it.
fn code_text(cuts: bool) -> &'static [u8]
    ensures { result.now ≡ code_text cuts }
{
    if cuts { b"G01" } else { b"G00" }
}

/// Puts a blank and the word of an axis, if the block moves it.
fn push_axis(out: &mut Vec<u8>, letter: u8, at: Option<i64>) -> Result<(), AllocError>
    ensures ok { OnOk result (out.new.items ≡ out.old.items ++ axis_text letter at) }
{
    match at {
        Some(at) => push_length(out, letter, at),
        None => Ok(()),
    }
}

/// Puts a blank, the letter of an axis and a length in mm with three decimals, so that it reads
/// back as the same length.
fn push_length(out: &mut Vec<u8>, letter: u8, at: i64) -> Result<(), AllocError>
    ensures ok { OnOk result (out.new.items ≡ out.old.items ++ axis_text letter (Some at)) }
{
    let mut digits = [0; 24];
    let end = length_text(at, &mut digits);
    push_all(out, &[b' ', letter])?;
    push_all(out, &digits[..end])?;
    Ok(())
}

/// Puts a blank and the word of the feed, if the block cuts.
fn push_feed(out: &mut Vec<u8>, cuts: bool, feed: Value) -> Result<(), AllocError>
    ensures ok { OnOk result (out.new.items ≡ out.old.items ++ feed_text cuts feed) }
{
    if !cuts {
        return Ok(());
    }
    let mut digits = [0; 24];
    let end = text(feed, &mut digits);
    push_all(out, b" F")?;
    push_all(out, &digits[..end])?;
    Ok(())
}

/// Puts a block and its line feed.
#[tactic(auto, unfolding(crate::specs::BlockText::block_text))]
fn push_block(out: &mut Vec<u8>, feed: Value, block: &PlainBlock) -> Result<(), AllocError>
    ensures ok { OnOk result (out.new.items ≡ out.old.items ++ block_text feed block.now) }
{
    push_all(out, code_text(block.cuts))?;
    push_axis(out, b'X', block.x)?;
    push_axis(out, b'Z', block.z)?;
    push_feed(out, block.cuts, feed)?;
    push_all(out, b"\n")?;
    Ok(())
}

/// All blocks of a part, a line each.
fn blocks_text(alloc: Global, feed: Value, blocks: &[PlainBlock]) -> Result<Vec<u8>, AllocError>
    ensures { IfOk result (λ text. text.items ≡ blocks_text feed blocks.now) }
{
    let mut out = Vec::new(alloc);
    for block in blocks {
        push_block(&mut out, feed, block)?;
    }
    Ok(out)
}

/// The text of a part: its plain blocks, a line each.
fn part_text(alloc: Global, part: &Part) -> Result<Vec<u8>, AllocError>
    ensures { IfOk result (λ text. text.items ≡ part_text part.now) }
{
    let blocks = part.blocks(alloc)?;
    let text = blocks_text(alloc, part.feed(), &blocks)?;
    Ok(text)
}

/// Puts one edit more; edits come in the order of their lines.
fn push(edits: &mut Vec<Edit>, line: u32, new: Vec<u8>) -> Result<(), AllocError>
    ensures ok { OnOk result (edits.new.items ≡ edits.old.items ++ record { line = line; new = new.items } ∷ []) }
{
    let new = ByteList::of(new);
    edits.push(Edit { line, new })?;
    Ok(())
}

/// Puts an edit without bytes for each of these lines: they go.
fn push_removed(alloc: Global, edits: &mut Vec<Edit>, lines: &[u32]) -> Result<(), AllocError>
    ensures ok { OnOk result (edits.new.items ≡ edits.old.items ++ map line_removal lines.now) }
{
    for line in lines {
        push(edits, *line, Vec::new(alloc))?;
    }
    Ok(())
}

/// Adds the edits of a part: its blocks stand in place of its first line, and its other lines go.
#[tactic(auto, unfolding(crate::specs::Replaced::edits_of))]
fn push_edits(alloc: Global, edits: &mut Vec<Edit>, part: &Part) -> Result<(), AllocError>
    ensures ok { OnOk result (edits.new.items ≡ edits.old.items ++ edits_of part.now) }
{
    let Some((line, others)) = part.lines().split_first() else {
        return Ok(());
    };
    let text = part_text(alloc, part)?;
    push(edits, *line, text)?;
    push_removed(alloc, edits, others)?;
    Ok(())
}

/// The edits of all these parts, in the order of their lines.
pub(crate) fn edits_of(alloc: Global, parts: &[Part]) -> Result<Vec<Edit>, AllocError>
    ensures { IfOk result (λ edits. edits.items ≡ flat_map edits_of parts.now) }
{
    let mut edits = Vec::new(alloc);
    for part in parts {
        push_edits(alloc, &mut edits, part)?;
    }
    Ok(edits)
}
