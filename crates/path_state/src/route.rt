//! Where control goes behind a block of words, as it was decided. standing.rt decides it
//! (`Standing::route`) and goes there (`Standing::go`). Other crates see it only within a
//! [`Decision`](crate::Decision).

/// Where control goes behind a block of words that is done.
#[derive(Clone, Copy, Debug, PartialEq, Eq)]
pub enum Route {
    /// To the next block.
    Next,
    /// Into a program that is called, to run it so many times.
    Call { program: u16, repeats: u16 },
    /// Back, as M99 leads: to the next repeat, behind the call, or to the start of the main
    /// program.
    Back,
    /// Back to a block of the caller, in the main program to one of its own.
    BackTo(u32),
}
