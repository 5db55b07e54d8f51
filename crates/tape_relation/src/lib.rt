//! The relation between a text and its tape, apart from any reader, the law that the reader's
//! definition is it, and the laws of edits: what may be put into a text, or taken out of it,
//! without a change of its tape.
//!
//! Nothing stands on this crate. The relation says of the whole text what `nc_text` computes line
//! by line: which condition of which refusal holds at which line, that the answer is the least line
//! and on it the least number, and which programs a text is. What one line says, and what makes it
//! unreadable, it says by a grammar of its own: bytes have signs, and signs are a sentence, or
//! none. Of `nc_text` and `line_text` it takes types (lines, signs, pieces, programs, faults) and
//! the numbers of the refusals, and nothing that reads. The laws of edits speak of the reader's
//! definition itself.
#![tactic(auto)]

mod edits;
mod law;

pub use edits::{
    a_blank_changes_only_places, a_carriage_return_changes_nothing, a_line_of_comments_is_no_block,
    a_line_that_says_nothing_reads_as_no_line, a_skipped_block_reads_as_no_line,
    an_empty_line_only_moves_lines, lines_that_say_the_same_read_the_same,
    lower_case_reads_as_upper_case,
};
pub use law::{
    a_line_is_cut_into_its_words, a_value_has_the_grammar, the_reader_reads_the_relation,
};
