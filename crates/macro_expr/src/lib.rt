//! Macro expressions and statements of the tape.
//!
//! [`parse_expr`] and [`parse_statement`] read a text and give its tree. The grammar stands in the
//! specs as a relation between texts and trees; a tree is given exactly if there is one and the text
//! names at most 32 variables, and else the number of the refusal. Left operands stand in a tree as
//! deep as its text is long, and are walked in a loop; right operands stand at most twelve deep.

#![tactic(auto)]

mod limits;
mod parse;
mod reading;
mod statements;
mod stop;
mod tree;
mod words;

pub use parse::{parse_expr, parse_statement};
pub use stop::Stop;
pub use tree::{Cond, Expr, ExprFault, Fun, Op, Rel, Statement, Target, VarRef};

// For users of the library: laws that no crate of the program takes.
pub use parse::no_text_has_two_trees;
