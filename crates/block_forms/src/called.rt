//! The call that a block makes: which program, how often, and by G65 or by M98.

/// How a program is called.
#[derive(Clone, Copy, Debug, Default, PartialEq, Eq)]
pub enum CallKind {
    #[default]
    /// By M98: the caller's local variables stay in force.
    Subprogram,
    /// By G65: with local variables of its own.
    Macro,
}

/// A call of a program.
#[derive(Clone, Copy, Debug, PartialEq, Eq)]
pub struct Called {
    /// The program's O number, 0 to 9,999; 0 is on no tape.
    pub program: u16,
    /// How often it runs, 1 to 9,999 times.
    pub repeats: u16,
    /// Whether local variables are its own.
    pub kind: CallKind,
}
