//! What a statement comes to, as statements.rt decides it before anything changes: a variable takes
//! a value, or control goes somewhere.
//! Other crates see it only within a [`Decision`](crate::Decision).
ghost use Rattle.std.specs.Prelude.{IsTrue};
ghost use Rattle.path_state.specs.Writings.{is_possible};

use nc_number::{Point, Var};

/// Which variable a statement writes, and its new value.
#[derive(Clone, Copy, Debug, PartialEq, Eq)]
pub enum Change {
    /// A local variable of the running level, `#1` to `#33`.
    Local(u8, Var),
    /// A common variable of the path's own.
    Own(u32, Var),
    /// A common variable that both paths share.
    Shared(u32, Var),
    /// The work offset of this number, 0 to 6, in 0.001 mm.
    Work(u8, Point),
}

/// A change that can be made: its variable exists, and an offset may be at its point.
#[derive(Clone, Copy, Debug)]
pub struct Writing {
    /// The variable and its new value.
    pub(crate) change: Change,
    ghost possible: { IsTrue (is_possible change) },
}

/// What a statement comes to.
#[derive(Clone, Copy, Debug)]
pub enum StatementStep {
    /// A variable takes a value, and the next block follows.
    Write(Writing),
    /// The next block follows.
    Next,
    /// Control goes to a block of the running program.
    To(u32),
}
