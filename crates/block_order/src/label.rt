//! What one path shows the other, a label, and what stands for it in a program, a mark. The specs
//! define the labels of a path by the marks of its programs.

/// What a path comes to, as far as the other path can tell.
#[derive(Clone, Copy, Debug, PartialEq, Eq)]
pub enum Label {
    /// A wait of this code.
    Wait(u16),
    /// The end of the path.
    End,
    /// The main program begins anew.
    Again,
    /// The path runs past a program's last block.
    Off,
}

/// A block at which the labels of a program go on, end, or turn to another program, or the place
/// past a program's last block.
#[derive(Clone, Copy, Debug, PartialEq, Eq)]
pub enum Mark {
    /// A wait of this code.
    Wait(u16),
    /// M02 or M30.
    End,
    /// M99 without P.
    Back,
    /// A call of a program that reaches a wait or an end, to run it so many times.
    Call { program: u16, repeats: u16 },
    /// Behind the last block.
    Past,
}
