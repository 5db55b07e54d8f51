//! The trees of expressions and statements of a tape. A new variant needs its line in specs/Tree and
//! specs/Grammar, in the readers (specs/Reading, Statements and Words, and src), and in their
//! evaluation.
ghost use Rattle.std.specs.Prelude.{◌≡◌};
ghost use Rattle.macro_expr.specs.Limits.{refusal};

use nc_number::{Cause, Value};
use thiserror::Error;

/// An expression. Brackets leave no node.
///
/// The operators of a text lean to the left, and a text may have any number of them: what walks a
/// tree goes down the left operands in a loop, and calls itself on right operands alone. A debug
/// text would call itself on both, so there is none.
#[cycle(tree)]
pub enum Expr {
    /// A number that is written out.
    Lit(Value),
    /// A variable.
    Look(VarRef),
    /// The expression behind a sign; `true` is minus.
    Sign(bool, Box<Expr>),
    /// A function of the expression.
    Call(Fun, Box<Expr>),
    /// Two expressions with an operator between them.
    Two(Op, Box<Expr>, Box<Expr>),
}

/// A loop down the left operands, so that a long sum does not run out of stack.
impl Drop for Expr {
    fn drop(mut self) {
        loop {
            match self {
                Expr::Lit(_) | Expr::Look(VarRef::Fixed(_)) => return,
                Expr::Look(VarRef::Computed(inner)) | Expr::Sign(_, inner) | Expr::Call(_, inner) =>
                    self = Box::into_inner(inner),
                Expr::Two(_, left, right) => {
                    drop(right);
                    self = Box::into_inner(left);
                }
            }
        }
    }
}

/// Which variable is named.
#[derive(Drop)]
#[cycle(tree)]
pub enum VarRef {
    /// The variable of this number.
    Fixed(u32),
    /// The variable whose number the expression gives.
    Computed(Box<Expr>),
}

/// A function of one value, which stands in brackets after its name.
#[derive(Clone, Copy, Debug, PartialEq, Eq)]
pub enum Fun {
    /// The square root.
    Sqrt,
    /// The magnitude.
    Abs,
    /// The fraction dropped, towards zero.
    Fix,
    /// The magnitude raised to a whole number, with the sign of the value.
    Fup,
    /// The nearest whole number, halves away from zero.
    Round,
}

/// An operator between two values.
#[derive(Clone, Copy, Debug, PartialEq, Eq)]
pub enum Op {
    /// `+`
    Add,
    /// `-`
    Sub,
    /// OR, on the bits of whole numbers.
    BitOr,
    /// XOR, on the bits of whole numbers.
    BitXor,
    /// `*`
    Mul,
    /// `/`
    Div,
    /// AND, on the bits of whole numbers.
    BitAnd,
    /// MOD, the remainder with the sign of the left value.
    Modulo,
}

/// How a condition compares its two sides: equal, not equal, greater, greater or equal, less, less
/// or equal.
#[derive(Clone, Copy, Debug, PartialEq, Eq)]
pub enum Rel {
    Eq,
    Ne,
    Gt,
    Ge,
    Lt,
    Le,
}

/// A condition of IF or WHILE: two expressions that are compared.
#[derive(Drop)]
pub struct Cond {
    /// What stands before the relation.
    pub left: Expr,
    /// The relation.
    pub rel: Rel,
    /// What stands after the relation.
    pub right: Expr,
}

/// Where a jump leads.
#[derive(Drop)]
pub enum Target {
    /// To this sequence number.
    Fixed(u32),
    /// To the sequence number that the expression gives.
    Computed(Expr),
}

/// A statement: what stands in a block in place of words. `#i` is a variable, `n` the target of a
/// jump, `m` the number of a loop, 1 to 3.
#[derive(Drop)]
pub enum Statement {
    /// `#i = expr`
    Assign(VarRef, Expr),
    /// `GOTO n`
    Goto(Target),
    /// `IF [cond] GOTO n`
    IfGoto(Cond, Target),
    /// `IF [cond] THEN #i = expr`
    IfThen(Cond, VarRef, Expr),
    /// `WHILE [cond] DO m`
    WhileDo(Cond, u8),
    /// `DO m`
    DoOnly(u8),
    /// `END m`
    EndLoop(u8),
}

/// Why a text is given no tree.
///
/// 5: too many digits; 20: no expression or statement; 21: more than five brackets open at once;
/// 22: no condition behind IF or WHILE; 23: an unknown function; 24: a loop number other than 1, 2
/// and 3; 25: more than 32 variables; 64: a sequence number out of its range.
#[derive(Clone, Copy, Debug, PartialEq, Eq, Error)]
#[error("refusal {number}")]
pub struct ExprFault {
    /// The number of the refusal, a row of the table of nc_number.
    pub number: u8,
}

impl ExprFault {
    /// The refusal of this cause.
    pub(crate) fn of(cause: Cause) -> ExprFault
        ensures { result ≡ refusal cause }
    {
        ExprFault {
            number: cause.number(),
        }
    }
}
