//! Plain blocks as the lines that stand for a block.
ghost use Rattle.std.specs.Prelude.{◌≡◌, ◌++◌, ◌∷◌, [], map, IfOk, OnOk};
ghost use Rattle.cycle_words.specs.Lines.{line_of, lines_of};

use nc_number::Value;
use nc_text::Block;
use plain_block::PlainBlock;
use plain_form::{plain_line, push_block};
use std::alloc::{AllocError, Global};

/// The line of a plain block, with this feed if it cuts.
fn line_of(alloc: Global, block: &PlainBlock, feed: &Option<Value>) -> Result<Block, AllocError>
    ensures { IfOk result (λ line. line ≡ line_of feed.now block.now) }
{
    let mut words = Vec::new(alloc);
    push_block(alloc, &mut words, block, *feed)?;
    Ok(plain_line(words))
}

/// Puts the lines of plain blocks.
pub fn push_lines(
    alloc: Global,
    blocks: &[PlainBlock],
    feed: &Option<Value>,
    lines: &mut Vec<Block>,
) -> Result<(), AllocError>
    ensures { OnOk result (lines.new.items ≡ lines.old.items ++ lines_of feed.now blocks.now) }
{
    for block in blocks {
        let line = line_of(alloc, block, feed)?;
        lines.push(line)?;
    }
    Ok(())
}

/// The lines of plain blocks.
pub fn lines_of(
    alloc: Global,
    blocks: &[PlainBlock],
    feed: &Option<Value>,
) -> Result<Vec<Block>, AllocError>
    ensures { IfOk result (λ lines. lines.items ≡ lines_of feed.now blocks.now) }
{
    let mut lines = Vec::new(alloc);
    push_lines(alloc, blocks, feed, &mut lines)?;
    Ok(lines)
}
