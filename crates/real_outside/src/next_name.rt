//! The name of the file that may take the place of another one.
//! For system_folder.rt of this crate.
use std::io::ErrorKind;
use std::{io, str};

/// What is put after the name of a file.
const ENDING: &[u8; 4] = b".new";

/// How many bytes there is room for. No file's name has so many.
const ROOM: usize = 260;

/// The name of a file that may take the place of another one.
#[derive(Drop)]
pub(crate) struct NextName {
    /// The bytes, and what is left of their room.
    bytes: [u8; ROOM],
    /// How many there are.
    length: usize,
}

impl NextName {
    /// The name of the file that may take the place of the one of this name.
    pub(crate) fn of(name: &str) -> io::Result<NextName> {
        let mut bytes = [0u8; ROOM];
        if name.len() >= ROOM - ENDING.len() {
            return Err(ErrorKind::InvalidInput.into());
        }
        let (front, rest) = bytes.split_at_mut(name.len());
        front.copy_from_slice(name.as_bytes());
        let (ending, _) = rest.split_at_mut(ENDING.len());
        ending.copy_from_slice(ENDING);
        Ok(NextName {
            bytes,
            length: name.len() + ENDING.len(),
        })
    }

    /// The name as text, as the system wants it.
    pub(crate) fn as_str(&self) -> &str {
        let front = self.bytes.get(..self.length).unwrap_or(&[]);
        str::from_utf8(front).unwrap_or("")
    }
}
