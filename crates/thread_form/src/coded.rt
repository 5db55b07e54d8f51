//! The lines of a thread: plain blocks, with the code that a thread along a line has in the system.
ghost use Rattle.std.specs.Prelude.{◌≡◌, ◌++◌, ◌∷◌, [], map, IfOk, OnOk, None};
ghost use Rattle.plain_form.specs.Made.{axis_words};
ghost use Rattle.thread_form.specs.Coded.{thread_words, words_in_b, coded_words, coded_line, coded_lines};

use code_tables::System;
use nc_number::Value;
use nc_text::{Block, Word};
use plain_block::{Course, PlainBlock};
use plain_form::{plain_line, push_block, push_length, push_number, push_word};
use std::alloc::{AllocError, Global};

/// Puts the word of an axis, if the block moves it.
fn push_axis(
    alloc: Global,
    words: &mut Vec<Word>,
    letter: u8,
    at: &Option<i64>,
) -> Result<(), AllocError>
    ensures { OnOk result (words.new.items ≡ words.old.items ++ axis_words letter at.now) }
{
    match *at {
        Some(at) => push_length(alloc, words, letter, at),
        None => Ok(()),
    }
}

/// Puts the words of a thread in system B.
fn push_thread(
    alloc: Global,
    words: &mut Vec<Word>,
    x: &Option<i64>,
    z: &Option<i64>,
    lead: Value,
) -> Result<(), AllocError>
    ensures { OnOk result (words.new.items ≡ words.old.items ++ thread_words x.now z.now lead) }
{
    push_word(alloc, words, b'G', b"33")?;
    push_axis(alloc, words, b'X', x)?;
    push_axis(alloc, words, b'Z', z)?;
    push_number(alloc, words, b'F', lead)
}

/// Puts the words of a plain block in system B.
fn push_in_b(alloc: Global, words: &mut Vec<Word>, block: &PlainBlock) -> Result<(), AllocError>
    ensures { OnOk result (words.new.items ≡ words.old.items ++ words_in_b block.now) }
{
    match block {
        PlainBlock::Move { course, x, z } => match *course {
            Course::Thread { lead } => push_thread(alloc, words, x, z, lead),
            Course::Rapid => push_block(alloc, words, block, None),
            Course::Cut => push_block(alloc, words, block, None),
            Course::Arc { .. } => push_block(alloc, words, block, None),
        },
        PlainBlock::Dwell { .. } => push_block(alloc, words, block, None),
    }
}

/// Puts the words of a plain block.
fn push_coded(
    alloc: Global,
    words: &mut Vec<Word>,
    system: System,
    block: &PlainBlock,
) -> Result<(), AllocError>
    ensures { OnOk result (words.new.items ≡ words.old.items ++ coded_words system block.now) }
{
    match system {
        System::A => push_block(alloc, words, block, None),
        System::B => push_in_b(alloc, words, block),
    }
}

/// The line of a plain block.
fn coded_line(alloc: Global, system: System, block: &PlainBlock) -> Result<Block, AllocError>
    ensures { IfOk result (λ line. line ≡ coded_line system block.now) }
{
    let mut words = Vec::new(alloc);
    push_coded(alloc, &mut words, system, block)?;
    Ok(plain_line(words))
}

/// The lines of plain blocks.
pub(crate) fn coded_lines(
    alloc: Global,
    system: System,
    blocks: &[PlainBlock],
) -> Result<Vec<Block>, AllocError>
    ensures { IfOk result (λ lines. lines.items ≡ coded_lines system blocks.now) }
{
    let mut lines = Vec::new(alloc);
    for block in blocks {
        let line = coded_line(alloc, system, block)?;
        lines.push(line)?;
    }
    Ok(lines)
}
