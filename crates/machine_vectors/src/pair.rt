//! The default settings, and the flow of a tape from the text of its blocks. The tables of these
//! tests and walk.rt use it.
use cell_settings::{Settings, read_settings};
use nc_number::Failing;
use nc_text::{Reader, Tape, TextFault};
use std::alloc::{AllocError, Global};
use std::test::Fail;
use tape_flow::{Flow, compile};

/// A byte of a tape: the end of a line for a `~`.
fn byte_of(byte: u8) -> u8 {
    if byte == b'~' { b'\n' } else { byte }
}

/// A text with each `~` as the end of a line.
fn lines_of(alloc: Global, text: &str) -> Result<Vec<u8>, AllocError> {
    let mut bytes = Vec::new(alloc);
    for byte in text.bytes() {
        bytes.push(byte_of(byte))?;
    }
    Ok(bytes)
}

/// The settings where a text sets nothing.
pub(crate) fn default_settings(alloc: Global) -> Result<Settings, Fail> {
    Ok(read_settings(alloc, b"")?)
}

/// The tape of this text.
fn tape_of(alloc: Global, text: &[u8]) -> Result<Tape, Failing<TextFault>> {
    let mut reader = Reader::new(alloc, 0)?;
    reader.feed(text)?;
    reader.finish()
}

/// The flow of the tape whose main program has these blocks, the first at line 3.
pub(crate) fn flow_of(alloc: Global, blocks: &str, settings: &Settings) -> Result<Flow, Fail> {
    let text = format!(in alloc; "%~O1~{blocks}~%~")?;
    let bytes = lines_of(alloc, text.as_str())?;
    let tape = tape_of(alloc, bytes.as_slice())?;
    match compile(alloc, &tape, settings) {
        Ok(flow) => Ok(flow),
        Err(Failing::Fault(fault)) => {
            let (number, line) = (fault.number, fault.line);
            Err(Fail::new(format_args!("{blocks}: {number} at line {line}")))
        }
        Err(Failing::NoMemory) => Err(Fail::new("out of memory")),
    }
}
