//! Blocks of a tape, and the answer of a form as a text of one line.
use code_tables::{CodeKind, System};
use nc_number::{NoMemory, Value};
use nc_text::{Block, Body, Reader, Tape};
use plain_form::{FormAnswer, PlainCause, Scene, Unit, WrittenLine};
use std::alloc::{AllocError, Global};

/// What is known where the tool stands in X and Z, lengths in 0.001 mm; G00 and F0.2 are in force.
pub(crate) fn standing(x: i32, z: i32, system: System) -> Scene {
    Scene {
        system,
        unit: Some(Unit::Millimetre),
        x: Some(i64::from(x)),
        z: Some(i64::from(z)),
        motion: Some(CodeKind::Rapid),
        incremental: Some(false),
        per_rev: Some(true),
        feed: Value::of(200_000),
        tool: None,
    }
}

/// The same with G01 in force.
pub(crate) fn cutting(x: i32, z: i32) -> Scene {
    Scene {
        motion: Some(CodeKind::Feed),
        ..standing(x, z, System::A)
    }
}

/// The tape of a program with these lines, cut by `|`; no tape if they are none.
pub(crate) fn tape_of(alloc: Global, lines: &str) -> Result<Option<Tape>, NoMemory> {
    let mut reader = Reader::new(alloc, 0)?;
    let mut text = Vec::new(alloc);
    for byte in b"%\nO1\n" {
        text.push(*byte)?;
    }
    for byte in lines.as_bytes() {
        text.push(if *byte == b'|' { b'\n' } else { *byte })?;
    }
    for byte in b"\n%\n" {
        text.push(*byte)?;
    }
    if reader.feed(&text).is_err() {
        return Ok(None);
    }
    Ok(reader.finish().ok())
}

/// The answer as a text: each line in its place in brackets, its blocks cut by blanks; or why it is
/// refused.
pub(crate) fn text_of(alloc: Global, answer: &FormAnswer) -> Result<String, AllocError> {
    let mut text = String::new(alloc);
    match answer {
        FormAnswer::NotMine => text.push_str("not mine")?,
        FormAnswer::Refused(fault) => {
            let (name, letter) = cause_of(fault.cause);
            let words = format!(in alloc; "line {}: {name}{}", fault.line, char::from(letter))?;
            text.push_str(words.as_str())?;
        }
        FormAnswer::Written(lines) => {
            for line in lines.as_slice() {
                push_line(alloc, line, &mut text)?;
            }
        }
    }
    Ok(text)
}

/// The name of a cause, with a blank before its letter, if it has one; else with `.`.
fn cause_of(cause: PlainCause) -> (&'static str, u8) {
    match cause {
        PlainCause::NoForm => ("no form", b'.'),
        PlainCause::Position => ("position", b'.'),
        PlainCause::Feed => ("feed", b'.'),
        PlainCause::Start => ("start", b'.'),
        PlainCause::Passes => ("passes", b'.'),
        PlainCause::Calculated(letter) => ("calculated ", letter),
        PlainCause::Missing(letter) => ("missing ", letter),
        PlainCause::Unexpected(letter) => ("unexpected ", letter),
        PlainCause::Range(letter) => ("range ", letter),
        _ => ("other", b'.'),
    }
}

/// Puts a line's blocks.
fn push_line(alloc: Global, line: &WrittenLine, text: &mut String) -> Result<(), AllocError> {
    text.push_str("[")?;
    for block in line.blocks.as_slice() {
        push_block(alloc, block, text)?;
    }
    text.push_str("]")
}

/// Puts a block's words.
fn push_block(alloc: Global, block: &Block, text: &mut String) -> Result<(), AllocError> {
    text.push_str(" ")?;
    let Body::Words(words) = &block.body else {
        return Ok(());
    };
    for word in words.as_slice() {
        text.push(char::from(word.letter))?;
        for byte in word.text.as_slice() {
            text.push(char::from(*byte))?;
        }
    }
    Ok(())
}
