//! A mark: a moment of a tape's reading, as far as a reader must know it to go back there when
//! memory runs out in a piece of the text. going_back.rt makes marks and goes back to them; each
//! field needs its line there and in specs/Mark.
ghost use Rattle.std.specs.Prelude.{◌≤◌};
ghost use Rattle.nc_number.specs.declared.limits.TheConstants.{LONGEST_TAPE, MOST_BLOCKS};

/// The sizes of what was read of a tape up to some moment; going back cuts off what was read since.
#[derive(Drop)]
pub(crate) struct Mark {
    /// How many lines were read.
    pub lines: u32,
    /// How many bytes they had, with their line feeds.
    pub bytes: u32,
    /// The number of the first `%` line, or 0 before it.
    pub percent: u32,
    /// How many blocks there were, of all programs.
    pub blocks: u32,
    /// How many programs stood before the one that was being read.
    pub done: usize,
    /// How many blocks the program that was being read had, or none if none was being read.
    pub current: Option<usize>,
    ghost few_lines: { lines ≤ bytes },
    ghost few_bytes: { bytes ≤ LONGEST_TAPE },
    ghost few_blocks: { blocks ≤ MOST_BLOCKS },
}
