//! A part of a file, by offset and length. A disk in memory (memory.rt) keeps the writes since a
//! sync as a list of these.

/// A stretch of a file: where it begins, and how many bytes it has.
#[derive(Clone, Copy, Debug, PartialEq, Eq)]
pub struct Stretch {
    /// The offset of its first byte.
    pub at: usize,
    /// How many bytes it has.
    pub len: usize,
}
