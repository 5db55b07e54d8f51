//! The comments of the lines of a text.
ghost use Rattle.std.specs.Prelude.{◌≡◌, ◌++◌, ◌∷◌, [], OnOk, IfOk};
ghost use Rattle.tape_plain.specs.Comments.{is_kept, is_inside, kept_byte, comments_of, comment_at};

use nc_number::ByteList;
use std::alloc::{AllocError, Global};

/// Whether a byte of a line belongs to a comment, its brackets too.
fn is_kept(inside: bool, byte: u8) -> bool
    ensures { result ≡ is_kept inside byte }
{
    inside || byte == b'('
}

/// Whether a comment is open behind a byte.
fn is_inside(inside: bool, byte: u8) -> bool
    ensures { result ≡ is_inside inside byte }
{
    is_kept(inside, byte) && byte != b')'
}

/// Puts a byte if it belongs to a comment.
fn push_kept(comment: &mut Vec<u8>, inside: bool, byte: u8) -> Result<(), AllocError>
    ensures { OnOk result (comment.new.items ≡ comment.old.items ++ kept_byte inside byte) }
{
    if is_kept(inside, byte) {
        comment.push(byte)?;
    }
    Ok(())
}

/// Puts the comments of a line.
fn push_line(comments: &mut Vec<ByteList>, line: Vec<u8>) -> Result<(), AllocError>
    ensures { OnOk result (comments.new.items ≡ comments.old.items ++ line.items ∷ []) }
{
    comments.push(ByteList::of(line))?;
    Ok(())
}

/// For each line of the text, from line 1 on, its comments with their brackets, one behind the other.
pub(crate) fn comments_of(alloc: Global, text: &[u8]) -> Result<Vec<ByteList>, AllocError>
    ensures { IfOk result (λ comments. comments.items ≡ comments_of text.now) }
{
    let mut comments = Vec::new(alloc);
    let mut line = Vec::new(alloc);
    let mut inside = false;
    for byte in text {
        if *byte == b'\n' {
            push_line(&mut comments, line)?;
            line = Vec::new(alloc);
            inside = false;
            continue;
        }
        push_kept(&mut line, inside, *byte)?;
        inside = is_inside(inside, *byte);
    }
    push_line(&mut comments, line)?;
    Ok(comments)
}

/// The comments of a line, from 1.
pub(crate) fn comment_at(comments: &[ByteList], line: u32) -> &[u8]
    ensures { result.now ≡ comment_at comments.now line }
{
    let place = (line as usize).saturating_sub(1);
    match comments.get(place) {
        Some(comment) => comment.as_slice(),
        None => &[],
    }
}
