//! The law of readings of macro expressions and statements that stop: refusals 20, 22, 23, 24 and
//! 64, the range of a sequence number.
ghost use Rattle.std.specs.Prelude.{◌≡◌, ℕ, List, Err};
ghost use Rattle.macro_expr.specs.declared.stop.Stop.{Stop};
ghost use Rattle.macro_expr.specs.Grammar.{IsExpression, IsStatement};
ghost use Rattle.macro_expr.specs.Statements.{expression_at, statement_at, whole_reading};
ghost use Rattle.macro_limits.specs.Refusals.{Lacks, Never, OfStatement};

/// A law: reading stops for a cause that is told over the grammar alone.
///
/// It stops for an unknown function only where letters that name none stand in place of an operand;
/// for a condition exactly where none stands behind IF or WHILE; for a loop exactly where DO, END,
/// or a WHILE with its condition and DO, has no single 1, 2 or 3; for a sequence number exactly
/// where a target's digits are above the range; and else for no narrower cause.
pub fn reading_stops_for_a_cause()
    ensures expression { (text : List ℕ) (stop : Stop) → whole_reading (expression_at text) ≡ Err stop
        → Lacks IsExpression Never text stop }
    ensures statement { (text : List ℕ) (stop : Stop) → whole_reading (statement_at text) ≡ Err stop
        → Lacks IsStatement (OfStatement text) text stop }
    ensures exactly { (text : List ℕ) (stop : Stop) → OfStatement text stop
        → whole_reading (statement_at text) ≡ Err stop }
{}
