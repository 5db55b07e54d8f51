//! A race: a shared variable, behind how many waits, the path that may write it, and the first lines
//! at which both paths come to it. writing.rt prints it; contracts above name it.
use nc_number::Path;

/// A race: one path may write the variable while the other names it.
#[derive(Clone, Copy, Debug, PartialEq, Eq)]
pub struct Race {
    /// The number of the shared variable.
    pub variable: u32,
    /// Behind how many meetings both paths may come to it.
    pub after: u32,
    /// The path that may write it.
    pub writer: Path,
    /// The least line of a block by which the writer may write it there, from 1.
    pub write_line: u32,
    /// The least line of a block of the other path that names it there, from 1.
    pub other_line: u32,
}
