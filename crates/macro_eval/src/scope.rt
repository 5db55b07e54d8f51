//! What the evaluation of a macro expression asks of its variables, and what it answers.
ghost use Rattle.std.specs.Prelude.{◌≡◌, ℕ, Result};
ghost use Rattle.macro_eval.specs.declared.scope.Look.{Look};
ghost use Rattle.macro_eval.specs.declared.scope.VarFault.{VarFault};

use nc_number::Var;

/// What is known of a variable.
#[derive(Clone, Copy, Debug, PartialEq, Eq)]
pub enum Look {
    /// Its value, or vacant.
    Is(Var),
    /// The paths share it, so that each reading is an event of its own.
    Shared,
}

/// Why a variable can't be looked at.
#[derive(Clone, Copy, Debug, PartialEq, Eq)]
pub enum VarFault {
    /// There is no variable of this number, or it can't be read.
    Range,
}

/// The answer of an evaluation.
#[derive(Clone, Copy, Debug, PartialEq, Eq)]
pub enum Eval {
    /// The value, or vacant.
    Got(Var),
    /// This shared variable must be read next.
    Need(u32),
    /// The alarm of this number: 1 to 4, or 30.
    Fault(u8),
}

/// The variables that an expression can name.
pub trait Scope {
    /// What is known of each variable.
    ghost table: { Self → ℕ → Result Look VarFault };

    /// What is known of the variable of this number.
    fn look(&self, variable: u32) -> Result<Look, VarFault>
        ensures { result ≡ table self.now variable };
}
