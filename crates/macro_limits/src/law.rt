//! The laws of the limits, over what `macro_expr` answers for the text of a macro expression or
//! statement: refusals 5 (too many digits), 21 (too many brackets) and 25 (too many variables). No
//! proof of another crate rests on them.

ghost use Rattle.std.specs.Prelude.{ℕ, false, List};
ghost use Rattle.macro_expr.specs.Tree.{Tree, Sentence};
ghost use Rattle.macro_expr.specs.Grammar.{IsExpression, IsStatement};
ghost use Rattle.macro_expr.specs.Limits.{clean_text};
ghost use Rattle.macro_expr.specs.Statements.{expression_at, statement_at, whole_reading};
ghost use Rattle.macro_expr.specs.Answers.{expression_of, statement_of};
ghost use Rattle.macro_limits.specs.Refused.{IsWithinLimits, IsRefusedByLimits};

/// A law: a text of the grammar has no number with too many digits, and opens no sixth bracket.
pub fn a_text_that_reads_is_within_its_limits()
    ensures expressions { (text : List ℕ) (tree : Tree) → IsExpression text tree → IsWithinLimits text }
    ensures statements { (text : List ℕ) (tree : Sentence) → IsStatement text tree → IsWithinLimits text }
{}

/// A law: for every text, 5, 21 and 25 are answered exactly if their limits say so, whether it
/// reads or not. The text is taken without blanks and comments, in upper case.
pub fn each_limit_has_its_refusal()
    ensures expressions { (text : List ℕ) → IsRefusedByLimits (clean_text false text)
        (whole_reading (expression_at (clean_text false text))) (expression_of text) }
    ensures statements { (text : List ℕ) → IsRefusedByLimits (clean_text false text)
        (whole_reading (statement_at (clean_text false text))) (statement_of text) }
{}
