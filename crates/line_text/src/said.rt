//! What a line of a tape says: nothing, an O number or a block. `read_line` answers it.
use crate::body::Body;

/// A block without the number of its line, which nc_text adds.
#[derive(Debug, Drop)]
pub struct SaidBlock {
    /// The number of its last N with a literal: none if it has no such N, or if that number is out
    /// of its range.
    pub sequence: Option<u32>,
    /// Each sequence number of the block is in its range, 0 to 99,999. If not, nc_text refuses the
    /// block.
    pub in_range: bool,
    /// Its words or its statement.
    pub body: Body,
}

/// What a line says.
#[derive(Debug, Drop)]
pub enum Said {
    /// No block: the line has nothing but blanks, comments and a `;` at its end, or is skipped.
    Nothing,
    /// An O number alone in its block: none if it is out of its range, 1 to 9,999.
    Program(Option<u32>),
    /// A block. Of a skipped one `read_line` says nothing.
    Block(SaidBlock),
}

/// How the signs of a line read before the line is judged: two of its faults, and what it says if
/// it has none.
#[derive(Debug, Drop)]
pub struct Reading {
    /// A sequence number or an O number has too many digits, and all before it can be read.
    pub long: bool,
    /// Something stands where no word can, or an O word does not stand alone.
    pub broken: bool,
    /// What the line says, if no fault refuses it.
    pub said: Said,
}
