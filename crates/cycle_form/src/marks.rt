//! Which lines of a text have a skip sign or a comment. A form with such a line is none: to write it
//! out would lose the comment, and the sign would skip only a part of it. form.rt and finish.rt ask
//! them.
ghost use Rattle.std.specs.Prelude.{◌≡◌, ◌||◌, IfOk};
ghost use Rattle.std.specs.List.{list_all};
ghost use Rattle.cycle_form.specs.Marks.{is_mark, marks_of, is_plain};

use nc_text::Block;
use std::alloc::{AllocError, Global};

/// For each line of a text whether it has a skip sign or begins a comment, from line 1 on. The only
/// error is out of memory.
pub fn marks_of(alloc: Global, text: &[u8]) -> Result<Vec<bool>, AllocError>
    ensures { IfOk result (λ marks. marks.items ≡ marks_of text.now) }
{
    let mut marks = Vec::new(alloc);
    let mut marked = false;
    for b in text {
        if *b == b'\n' {
            marks.push(marked)?;
            marked = false;
            continue;
        }
        marked = is_marked(marked, *b);
    }
    marks.push(marked)?;
    Ok(marks)
}

/// Whether the line has a mark, if it had one `before` this byte or has it with it: `(` begins a
/// comment, `/` is a skip sign.
fn is_marked(before: bool, b: u8) -> bool
    ensures { result ≡ (before || is_mark b) }
{
    before || b == b'(' || b == b'/'
}

/// Whether the block's line has neither a skip sign nor a comment.
pub(crate) fn is_plain(marks: &[bool], block: &Block) -> bool
    ensures { result ≡ is_plain marks.now block.now }
{
    match marks.get(block.line.saturating_sub(1) as usize) {
        Some(marked) => !*marked,
        None => false,
    }
}

/// Whether no line of these blocks has a skip sign or a comment.
pub(crate) fn are_plain(marks: &[bool], blocks: &[Block]) -> bool
    ensures { result ≡ list_all (is_plain marks.now) blocks.now }
{
    blocks.iter().all(|block| is_plain(marks, block))
}
