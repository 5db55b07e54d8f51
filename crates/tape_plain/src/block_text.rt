//! The text of the plain blocks that stand for a line.
ghost use Rattle.std.specs.Prelude.{◌≡◌, ◌++◌, ◌∷◌, [], OnOk, IfOk};
ghost use Rattle.std.specs.List.{flat_map};
ghost use Rattle.tape_plain.specs.BlockText.{word_text, body_text, number_text, comment_text, tail_text, block_text, blocks_text};

use line_edits::push_all;
use nc_number::NoMemory;
use nc_text::{Block, Body, Word};
use std::alloc::Global;
use text_pieces::push_numbered;

/// Puts a word and a blank.
fn push_word(out: &mut Vec<u8>, word: &Word) -> Result<(), NoMemory>
    ensures { OnOk result (out.new.items ≡ out.old.items ++ word_text word.now) }
{
    push_all(out, &[word.letter])?;
    push_all(out, word.text.as_slice())?;
    push_all(out, b" ")?;
    Ok(())
}

/// Puts words, a blank behind each.
fn push_words(out: &mut Vec<u8>, words: &[Word]) -> Result<(), NoMemory>
    ensures { OnOk result (out.new.items ≡ out.old.items ++ flat_map word_text words.now) }
{
    for word in words {
        push_word(out, word)?;
    }
    Ok(())
}

/// Puts a statement and a blank.
fn push_statement(out: &mut Vec<u8>, text: &[u8]) -> Result<(), NoMemory>
    ensures { OnOk result (out.new.items ≡ out.old.items ++ (text.now ++ 32 ∷ [])) }
{
    push_all(out, text)?;
    push_all(out, b" ")?;
    Ok(())
}

/// Puts what a block says, a blank behind each word.
fn push_body(out: &mut Vec<u8>, body: &Body) -> Result<(), NoMemory>
    ensures { OnOk result (out.new.items ≡ out.old.items ++ body_text body.now) }
{
    match body {
        Body::Words(words) => push_words(out, words.as_slice()),
        Body::Statement(text) => push_statement(out, text.as_slice()),
    }
}

/// Puts a sequence number, if there is one, and a blank.
fn push_sequence(out: &mut Vec<u8>, sequence: Option<u32>) -> Result<(), NoMemory>
    ensures { OnOk result (out.new.items ≡ out.old.items ++ number_text sequence) }
{
    match sequence {
        Some(number) => {
            push_numbered(out, b"N", u64::from(number))?;
            push_all(out, b" ")?;
            Ok(())
        }
        None => Ok(()),
    }
}

/// Puts comments of the tape, if there are any, and a byte behind them.
fn push_comment(out: &mut Vec<u8>, comment: &[u8], behind: u8) -> Result<(), NoMemory>
    ensures { OnOk result (out.new.items ≡ out.old.items ++ comment_text comment.now behind) }
{
    if comment.is_empty() {
        return Ok(());
    }
    push_all(out, comment)?;
    push_all(out, &[behind])?;
    Ok(())
}

/// Puts the comment of the line for which a block stands, and the line's end.
fn push_tail(out: &mut Vec<u8>, line: u32) -> Result<(), NoMemory>
    ensures { OnOk result (out.new.items ≡ out.old.items ++ tail_text line) }
{
    push_numbered(out, b"(", u64::from(line))?;
    push_all(out, b")\n")?;
    Ok(())
}

/// Puts a block that stands for a line, with the sequence number, if there is one, and comments.
fn push_block(
    out: &mut Vec<u8>,
    line: u32,
    sequence: Option<u32>,
    comment: &[u8],
    block: &Block,
) -> Result<(), NoMemory>
    ensures { OnOk result (out.new.items ≡ out.old.items ++ block_text line sequence comment.now block.now) }
{
    push_sequence(out, sequence)?;
    push_body(out, &block.body)?;
    push_comment(out, comment, b' ')?;
    push_tail(out, line)
}

/// The text of the blocks that stand for a line; its sequence number and its comments stand with the
/// first, and the comments alone if there is no block.
pub(crate) fn blocks_text(
    alloc: Global,
    line: u32,
    sequence: Option<u32>,
    comment: &[u8],
    blocks: &[Block],
) -> Result<Vec<u8>, NoMemory>
    ensures { IfOk result (λ text. text.items ≡ blocks_text line sequence comment.now blocks.now) }
{
    let mut out = Vec::new(alloc);
    let mut number = sequence;
    let mut left = comment;
    for block in blocks {
        push_block(&mut out, line, number, left, block)?;
        number = None;
        left = &[];
    }
    push_comment(&mut out, left, b'\n')?;
    Ok(out)
}
