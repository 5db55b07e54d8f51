//! What one block of a tape says.
//!
//! The words of a block are read into literals and expressions, or its statement into its tree, and
//! the block is refused if the control does not know or allow what it says: of several refusals
//! the one of the least number. What it does to the order of blocks is its `Control`.
#![tactic(auto)]

mod block;
mod body;
mod called;
mod controls;
mod fault;
mod gathering;
mod laws;
mod reading;
mod refusals;
mod statement;
mod words;

pub use block::FlowBlock;
pub use block_words::{
    Dialect, FlowWord, FlowWordList, Purpose, Range, RowList, WordValue, is_one_of, row_of,
};
pub use body::FlowBody;
pub use called::{CallKind, Called};
pub use fault::FormFault;
pub use reading::read_block;
pub use statement::FlowStatement;
pub use words::FlowWords;

// For users of the library: what no crate of the program takes.
pub use block_words::fits_word;
pub use laws::{the_least_refusal_is_answered, the_least_refusal_of_a_text_is_answered};
pub use reading::{read_statement, read_words};
