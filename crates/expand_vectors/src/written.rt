//! The text that a tape is written out to, or its refusal, as the rows of tapes.rt write them.
//! sizes.rt and tapes.rt check their tapes with it.
use nc_number::Failing;
use std::alloc::{AllocError, Global};
use tape_expand::{ExpandFault, expand_tape};

/// A byte of a tape: the end of a line for a `~`, and a carriage return for a `^`.
fn byte_of(byte: u8) -> u8 {
    match byte {
        b'~' => b'\n',
        b'^' => b'\r',
        _ => byte,
    }
}

/// The bytes of a text in which `~` ends a line.
fn bytes_of(alloc: Global, text: &str) -> Result<Vec<u8>, AllocError> {
    let mut bytes = Vec::new(alloc);
    for byte in text.bytes() {
        bytes.push(byte_of(byte))?;
    }
    Ok(bytes)
}

/// What the control answers to these bytes: the bytes of the new tape, or its refusal as text.
pub(crate) fn answer(alloc: Global, bytes: &[u8]) -> Result<Vec<u8>, AllocError> {
    match expand_tape(alloc, bytes) {
        Ok(written) => Ok(written),
        Err(Failing::Fault(fault)) => refusal(alloc, fault),
        Err(Failing::NoMemory) => Vec::from_slice(alloc, b"no memory"),
    }
}

/// The refusal as a row writes it: its number and its line.
fn refusal(alloc: Global, fault: ExpandFault) -> Result<Vec<u8>, AllocError> {
    let text = format!(in alloc; "refused {} line {}", fault.number(), fault.line())?;
    Vec::from_slice(alloc, text.as_bytes())
}

/// What is wanted of a row: a refusal as it stands, or the lines of a whole tape.
fn wanted(alloc: Global, text: &str) -> Result<Vec<u8>, AllocError> {
    if text.starts_with("refused") {
        return bytes_of(alloc, text);
    }
    let whole = format!(in alloc; "%~O1~{text}M30~%~")?;
    bytes_of(alloc, whole.as_str())
}

/// Whether the lines of a row, in a tape of one program, are written out as the row wants.
pub(crate) fn holds(alloc: Global, row: &str) -> Result<bool, AllocError> {
    let (lines, answered) = row.split_once('|').unwrap_or((row, ""));
    let whole = format!(in alloc; "%~O1~{lines}M30~%~")?;
    let bytes = bytes_of(alloc, whole.as_str())?;
    let got = answer(alloc, bytes.as_slice())?;
    let due = wanted(alloc, answered)?;
    Ok(got.as_slice() == due.as_slice())
}
