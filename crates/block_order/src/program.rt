//! Blocks and programs, as far as their order goes.
use crate::control::Control;
use nc_number::ListOf;

/// A block, as far as the order of blocks goes.
#[derive(Clone, Copy, Debug, PartialEq, Eq)]
pub struct ControlBlock {
    /// The number of its line on the tape, from 1.
    pub line: u32,
    /// Its sequence number, 0 to 99,999.
    pub sequence: Option<u32>,
    /// What it does to the order of blocks.
    pub control: Control,
}

/// The blocks of a program, in the order of the text.
pub type ControlBlockList = ListOf<ControlBlock>;

/// A program of a tape, as far as the order of blocks goes.
#[derive(Debug, Drop)]
pub struct ControlProgram {
    /// The O number, 1 to 9,999.
    pub number: u16,
    /// The line of the O number.
    pub line: u32,
    /// Its blocks, in the order of the text.
    pub blocks: ControlBlockList,
}
