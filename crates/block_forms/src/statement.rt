//! A statement in a block: its tree, as macro_expr reads it, with the codes of what it evaluates.
ghost use Rattle.std.specs.Prelude.{◌≡◌};
ghost use Rattle.macro_expr.specs.Tree.{sentence_of, trees_of_sentence};

use macro_eval::CodeList;
use macro_expr::Statement;

/// A statement, and the codes of what it evaluates, in their order.
#[derive(Drop)]
pub struct FlowStatement {
    /// Its tree.
    pub statement: Statement,
    /// Of a condition left and right, then of a computed number on the left side, then of the
    /// value; of a jump that of its computed target.
    pub codes: CodeList,
    ghost agrees: { codes ≡ trees_of_sentence (sentence_of statement) },
}
