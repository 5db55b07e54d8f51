//! The words of one block, and what its codes make of them.
//!
//! A word is a letter with a literal or the code of an expression. The M and G codes among the words
//! are looked up in the tables of the cell's system, and decide what P and L mean, which words must
//! be written out and which numbers they may have.
#![tactic(auto)]

mod codes;
mod dialect;
mod letters;
mod purpose;
mod range;
mod row_list;
mod word;

pub use codes::{
    first_code, first_waiting, has_code, has_wait, have_macro_call, one_shot_of, purpose_by,
    row_of_word, rows_of,
};
pub use dialect::{Dialect, row_of};
pub use letters::{count_of, has, has_computed, is_one_of, number_of};
pub use purpose::Purpose;
pub use range::{Range, fits_word, is_in_range};
pub use row_list::RowList;
pub use word::{FlowWord, FlowWordList, WordValue};
