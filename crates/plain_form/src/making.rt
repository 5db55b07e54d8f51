//! Words of plain blocks, put behind those so far.
ghost use Rattle.std.specs.Prelude.{◌≡◌, ◌++◌, ◌∷◌, [], OnOk, IfOk};
ghost use Rattle.plain_form.specs.Made.{made_word, length_word, number_word, axis_words, feed_words, centre_words, course_words, block_words, code_text, rest_words, plain_line};

use nc_number::{ByteList, Value, length_text, text};
use nc_text::{Block, Body, Word, WordList};
use plain_block::{ArcCentre, Course, PlainBlock};
use std::alloc::{AllocError, Global};

/// The most that a rest of a plain block lasts, in milliseconds.
pub const LONGEST_REST: u64 = 99_999_999;

/// A copy of a text.
fn copied(alloc: Global, text: &[u8]) -> Result<ByteList, AllocError>
    ensures { IfOk result (λ copy. copy ≡ text.now) }
{
    let bytes = Vec::from_slice(alloc, text)?;
    Ok(ByteList::of(bytes))
}

/// Puts a word of this letter and this text.
pub fn push_word(
    alloc: Global,
    words: &mut Vec<Word>,
    letter: u8,
    text: &[u8],
) -> Result<(), AllocError>
    ensures { OnOk result (words.new.items ≡ words.old.items ++ made_word letter text.now ∷ []) }
{
    let text = copied(alloc, text)?;
    words.push(Word {
        letter,
        start: 0,
        end: 0,
        text,
    })?;
    Ok(())
}

/// Puts a word of a length in 0.001 mm, in mm with three decimals.
pub fn push_length(
    alloc: Global,
    words: &mut Vec<Word>,
    letter: u8,
    at: i64,
) -> Result<(), AllocError>
    ensures { OnOk result (words.new.items ≡ words.old.items ++ length_word letter at ∷ []) }
{
    let mut digits = [0; 24];
    let end = length_text(at, &mut digits);
    push_word(alloc, words, letter, &digits[..end])
}

/// Puts a word of a number in whole units.
pub fn push_number(
    alloc: Global,
    words: &mut Vec<Word>,
    letter: u8,
    number: Value,
) -> Result<(), AllocError>
    ensures { OnOk result (words.new.items ≡ words.old.items ++ number_word letter number ∷ []) }
{
    let mut digits = [0; 24];
    let end = text(number, &mut digits);
    push_word(alloc, words, letter, &digits[..end])
}

/// Puts the word of an axis, if the block moves it.
fn push_axis(
    alloc: Global,
    words: &mut Vec<Word>,
    letter: u8,
    at: Option<i64>,
) -> Result<(), AllocError>
    ensures { OnOk result (words.new.items ≡ words.old.items ++ axis_words letter at) }
{
    match at {
        Some(at) => push_length(alloc, words, letter, at),
        None => Ok(()),
    }
}

/// Puts the word of a feed, if there is one.
fn push_feed(alloc: Global, words: &mut Vec<Word>, feed: Option<Value>) -> Result<(), AllocError>
    ensures { OnOk result (words.new.items ≡ words.old.items ++ feed_words feed) }
{
    match feed {
        Some(feed) => push_number(alloc, words, b'F', feed),
        None => Ok(()),
    }
}

/// Puts the words of an arc's centre.
fn push_centre(alloc: Global, words: &mut Vec<Word>, centre: ArcCentre) -> Result<(), AllocError>
    ensures { OnOk result (words.new.items ≡ words.old.items ++ centre_words centre) }
{
    match centre {
        ArcCentre::Offset { i, k } => {
            push_length(alloc, words, b'I', i)?;
            push_length(alloc, words, b'K', k)
        }
        ArcCentre::Radius { r } => push_length(alloc, words, b'R', r),
    }
}

/// The code of a course.
fn code_text(course: &Course) -> &'static [u8]
    ensures { result.now ≡ code_text course.now }
{
    match *course {
        Course::Rapid => b"00",
        Course::Cut => b"01",
        Course::Thread { .. } => b"32",
        Course::Arc { clockwise, .. } => { if clockwise { b"02" } else { b"03" } }
    }
}

/// Puts what a course needs behind the axes: the centre of an arc, and the feed of a cut.
fn push_course(
    alloc: Global,
    words: &mut Vec<Word>,
    course: &Course,
    feed: Option<Value>,
) -> Result<(), AllocError>
    ensures { OnOk result (words.new.items ≡ words.old.items ++ course_words course.now feed) }
{
    match *course {
        Course::Rapid => Ok(()),
        Course::Cut => push_feed(alloc, words, feed),
        Course::Thread { lead } => push_feed(alloc, words, Some(lead)),
        Course::Arc { centre, .. } => {
            push_centre(alloc, words, centre)?;
            push_feed(alloc, words, feed)
        }
    }
}

/// Puts the words of a rest of so many milliseconds, at most 99,999,999.
fn push_rest(alloc: Global, words: &mut Vec<Word>, ms: u64) -> Result<(), AllocError>
    ensures { OnOk result (words.new.items ≡ words.old.items ++ rest_words ms) }
{
    push_word(alloc, words, b'G', b"04")?;
    push_length(alloc, words, b'X', ms.min(LONGEST_REST) as i64)
}

/// Puts the words of a plain block: its code, its axes, and the feed of a cut or an arc, if one is
/// given; else the feed in force holds. The feed of a thread is its lead.
pub fn push_block(
    alloc: Global,
    words: &mut Vec<Word>,
    block: &PlainBlock,
    feed: Option<Value>,
) -> Result<(), AllocError>
    ensures { OnOk result (words.new.items ≡ words.old.items ++ block_words feed block.now) }
{
    match block {
        PlainBlock::Move { course, x, z } => {
            push_word(alloc, words, b'G', code_text(course))?;
            push_axis(alloc, words, b'X', *x)?;
            push_axis(alloc, words, b'Z', *z)?;
            push_course(alloc, words, course, feed)
        }
        PlainBlock::Dwell { ms } => push_rest(alloc, words, *ms),
    }
}

/// The plain block of these words.
pub fn plain_line(words: Vec<Word>) -> Block
    ensures { result ≡ plain_line words.items }
{
    Block {
        line: 0,
        sequence: None,
        body: Body::Words(WordList::of(words)),
    }
}
