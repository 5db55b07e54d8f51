//! One open call of a place. A place (place.rt) is made of frames, the running program's and those
//! of its callers. Specs of the crates above speak of frames.

/// One open call of a place, or the main program at its bottom: the program that runs, at a block,
/// with so many repeats still to come.
#[derive(Clone, Copy, Debug, Default, PartialEq, Eq)]
pub struct Frame {
    /// The O number of the program.
    pub program: u16,
    /// The block, counted from 0; the number of the program's blocks stands for the place past
    /// them.
    pub block: u32,
    /// How many repeats of the program are still to come after this run.
    pub left: u16,
}
