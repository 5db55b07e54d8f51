//! What a block does to the order of blocks. Which words say so, the crates that read blocks say.

/// What a block does to the order of blocks.
#[derive(Clone, Copy, Debug, PartialEq, Eq)]
pub enum Control {
    /// The next block follows.
    Next,
    /// A GOTO, with a condition or without, to a sequence number that is written out, or to a
    /// computed one.
    Goto(Option<u32>),
    /// The head of a loop of this name, 1, 2 or 3, with a condition.
    While(u8),
    /// The head of a loop without a condition.
    Do(u8),
    /// The end of a loop of this name, 1, 2 or 3.
    EndLoop(u8),
    /// A wait of this code for the other path.
    Wait(u16),
    /// M02 or M30: the path ends.
    End,
    /// A call, by M98 or G65, of the program with this O number, 1 to 9,999 times.
    Call { program: u16, repeats: u16 },
    /// M99: back to the caller, or to the next repeat; in the main program to its start.
    Back,
    /// M99 P: back to this sequence number of the caller; in the main program a jump there.
    BackTo(u32),
}
