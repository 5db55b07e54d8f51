//! The comparisons of macro conditions: EQ, NE, GT, GE, LT, LE.
ghost use Rattle.std.specs.Prelude.{◌≡◌};
ghost use Rattle.macro_eval.specs.Relations.{are_same, holds_of};

use macro_expr::Rel;
use nc_number::Var;

/// Whether both are vacant, or both are the same number.
fn are_same(a: &Var, b: &Var) -> bool
    ensures { result ≡ are_same a.now b.now }
{
    match (a, b) {
        (Var::Vacant, Var::Vacant) => true,
        (Var::Is(a), Var::Is(b)) => a.micro() == b.micro(),
        _ => false,
    }
}

/// Whether the relation holds. In EQ and NE vacant differs from 0 and equals vacant alone; in GT,
/// GE, LT and LE it counts as 0.
pub fn holds(rel: Rel, a: Var, b: Var) -> bool
    ensures { result ≡ holds_of rel a b }
{
    let (left, right) = (a.or_zero().micro(), b.or_zero().micro());
    match rel {
        Rel::Eq => are_same(&a, &b),
        Rel::Ne => !are_same(&a, &b),
        Rel::Gt => left > right,
        Rel::Ge => left >= right,
        Rel::Lt => left < right,
        Rel::Le => left <= right,
    }
}
