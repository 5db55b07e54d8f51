//! Plain blocks as a text of one line: R a rapid, C a cut, T a thread, with the words of each, and P
//! a rest.
use nc_number::Value;
use plain_block::{Course, PlainBlock};
use std::alloc::{AllocError, Global};

/// The text of blocks, if there are not too many.
pub(crate) fn text_of(
    alloc: Global,
    blocks: Option<Vec<PlainBlock>>,
) -> Result<String, AllocError> {
    let mut text = String::new(alloc);
    let Some(blocks) = blocks else {
        text.push_str("too many")?;
        return Ok(text);
    };
    for block in &blocks {
        push_block(alloc, block, &mut text)?;
    }
    Ok(text)
}

/// Puts the text of a block.
fn push_block(alloc: Global, block: &PlainBlock, text: &mut String) -> Result<(), AllocError> {
    match *block {
        PlainBlock::Move { course, x, z } => {
            text.push_str(course_letter(course))?;
            push_axis(alloc, "X", x, text)?;
            push_axis(alloc, "Z", z, text)
        }
        PlainBlock::Dwell { ms } => {
            let word = format!(in alloc; " P{ms}")?;
            text.push_str(word.as_str())
        }
    }
}

/// The letter of a course, after a blank.
fn course_letter(course: Course) -> &'static str {
    match course {
        Course::Rapid => " R",
        Course::Cut => " C",
        Course::Thread { .. } => " T",
        Course::Arc { .. } => " A",
    }
}

/// Puts the word of an axis, if the block moves it.
fn push_axis(
    alloc: Global,
    letter: &str,
    at: Option<i64>,
    text: &mut String,
) -> Result<(), AllocError> {
    let Some(at) = at else {
        return Ok(());
    };
    let word = format!(in alloc; "{letter}{at}")?;
    text.push_str(word.as_str())
}

/// A lead of so many whole millimetres.
pub(crate) fn lead(millimetres: u8) -> Value {
    match Value::of_units(i64::from(millimetres)) {
        Some(lead) => lead,
        None => Value::zero(),
    }
}
