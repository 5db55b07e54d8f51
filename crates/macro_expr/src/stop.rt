//! Why the reading of a macro expression or statement stops, and the refusal that this is.
//! reading.rt and statements.rt stop so, parse.rt makes the refusal of it. A new one needs its row
//! in specs/Limits and in the laws of refusals.
ghost use Rattle.std.specs.Prelude.{◌≡◌};
ghost use Rattle.macro_expr.specs.Limits.{refusal, cause_beside};

use crate::tree::ExprFault;
use nc_number::Cause;

/// Why reading from left to right stops at a place.
#[derive(Clone, Copy, Debug, PartialEq, Eq)]
pub enum Stop {
    /// What stands there is no part of an expression or a statement that could go on.
    Expression,
    /// No condition stands behind IF or WHILE.
    Condition,
    /// Letters that name no function stand in place of an operand.
    Function,
    /// The number of a loop is not 1, 2 or 3.
    Loop,
    /// The target of a jump is a sequence number above 99,999.
    Sequence,
}

impl Stop {
    /// The refusal of a text whose reading stops so; `many` says that it names too many variables.
    pub(crate) fn refusal(self, many: bool) -> ExprFault
        ensures { result ≡ refusal (cause_beside many self) }
    {
        let cause = match self {
            Stop::Expression if many => Cause::TooManyVariables,
            Stop::Sequence if many => Cause::TooManyVariables,
            Stop::Expression => Cause::BadExpression,
            Stop::Condition => Cause::BadCondition,
            Stop::Function => Cause::UnknownFunction,
            Stop::Loop => Cause::BadLoopNumber,
            Stop::Sequence => Cause::WordRange,
        };
        ExprFault::of(cause)
    }
}
