//! The values of a tape's macro expressions.
//!
//! [`compile`] and [`compile_statement`] make code of trees, and [`evaluate`] runs it. A shared
//! variable takes the next of the values that were read so far, and if none is left, the answer is
//! the variable that is needed next. Contracts see code as its tree, and the answer as the meaning
//! of the tree. Evaluation takes no memory.

#![tactic(auto)]

mod code;
mod code_list;
mod compare;
mod operands;
mod running;
mod scope;
mod stepping;
mod whole;

pub use code::{Code, Instr, compile};
pub use code_list::{CodeList, compile_statement};
pub use compare::holds;
pub use running::evaluate;
pub use scope::{Eval, Look, Scope, VarFault};
pub use whole::{variable_number, whole_number};

// For users of the library: what no crate of the program takes.
pub use running::{count_reads, each_variable_takes_one_read_at_most, eval};
