//! The room in which `read_line` reads a line.
use crate::sign::Sign;
use std::alloc::Global;

/// Where lines are read. The room that one line takes is used for the next.
#[derive(Debug, Drop)]
pub struct LineBuffer {
    /// Where the memory comes from.
    pub alloc: Global,
    /// The signs of the line that is read.
    pub signs: Vec<Sign>,
}

impl LineBuffer {
    /// An empty buffer; it takes no memory yet.
    pub fn new(alloc: Global) -> Self {
        LineBuffer {
            alloc,
            signs: Vec::new(alloc),
        }
    }
}
