//! The tapes that rows of a table write, with `~` for the end of a line, and their refusals as
//! text. forms.rt, open_blocks.rt, places.rt and texts.rt read their tapes with it; orders.rt takes
//! the text of a refusal.
use nc_number::Failing;
use nc_text::{Block, Reader, Tape, TextFault};
use std::alloc::{AllocError, Global};

/// A byte of a tape: the end of a line if it is a `~`.
fn byte_of(byte: u8) -> u8 {
    if byte == b'~' { b'\n' } else { byte }
}

/// A text with each `~` as the end of a line.
fn lines_of(alloc: Global, text: &str) -> Result<Vec<u8>, AllocError> {
    let mut bytes = Vec::new(alloc);
    for byte in text.bytes() {
        bytes.push(byte_of(byte))?;
    }
    Ok(bytes)
}

/// The tape of these bytes, which come in pieces of that length; `skips` are the switches that are
/// set.
fn tape_of(
    alloc: Global,
    skips: u16,
    bytes: &[u8],
    step: usize,
) -> Result<Tape, Failing<TextFault>> {
    let mut reader = Reader::new(alloc, skips)?;
    for piece in bytes.chunks(step.max(1)) {
        reader.feed(piece)?;
    }
    reader.finish()
}

/// The tape of a text in which `~` stands for the end of a line, in pieces of that length; `skips`
/// are the switches that are set.
pub(crate) fn read_in(
    alloc: Global,
    skips: u16,
    text: &str,
    step: usize,
) -> Result<Tape, Failing<TextFault>> {
    let bytes = lines_of(alloc, text)?;
    tape_of(alloc, skips, bytes.as_slice(), step)
}

/// The tape of a text in which `~` stands for the end of a line, with no switch set.
pub(crate) fn read(alloc: Global, text: &str) -> Result<Tape, Failing<TextFault>> {
    read_in(alloc, 0, text, 1_000_000)
}

/// The text of a refusal: its number and its line.
pub(crate) fn refusal(alloc: Global, number: u8, line: u32) -> Result<String, AllocError> {
    format!(in alloc; "refused {number} line {line}")
}

/// The first block of a tape.
pub(crate) fn first_block(tape: &Tape) -> Option<&Block> {
    match tape.as_slice() {
        [program, ..] => program.blocks.as_slice().first(),
        [] => None,
    }
}
