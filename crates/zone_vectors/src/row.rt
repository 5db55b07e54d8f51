//! The texts that rows of these tests write: `~` stands for the end of a line. pairs.rt and
//! texts.rt read their rows by it.
use std::alloc::{AllocError, Global};

/// The byte that a byte of a row stands for.
fn byte_of(byte: u8) -> u8 {
    match byte {
        b'~' => b'\n',
        other => other,
    }
}

/// Puts the bytes of a row's text behind others.
fn put_lines(bytes: &mut Vec<u8>, text: &str) -> Result<(), AllocError> {
    for byte in text.bytes() {
        bytes.push(byte_of(byte))?;
    }
    Ok(())
}

/// The bytes of a row's text.
pub(crate) fn lines_of(alloc: Global, text: &str) -> Result<Vec<u8>, AllocError> {
    let mut bytes = Vec::new(alloc);
    put_lines(&mut bytes, text)?;
    Ok(bytes)
}

/// The bytes of a row's text, behind a line `by moves`.
pub(crate) fn behind_moves(alloc: Global, text: &str) -> Result<Vec<u8>, AllocError> {
    let mut bytes = Vec::new(alloc);
    put_lines(&mut bytes, "by moves~")?;
    put_lines(&mut bytes, text)?;
    Ok(bytes)
}

/// Whether the bytes are those of a row's text.
pub(crate) fn is_text(alloc: Global, bytes: &[u8], text: &str) -> Result<bool, AllocError> {
    let wanted = lines_of(alloc, text)?;
    Ok(bytes == wanted.as_slice())
}
