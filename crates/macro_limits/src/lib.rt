//! The laws of the refusals of a macro expression or statement, over its grammar: each limit has
//! its refusal, and no other text has it; and where reading stops its cause stands.
//!
//! No code stands on this crate. The parser of `macro_expr` looks for a number with too many digits
//! and for a sixth open bracket only if a text does not read: a text that reads has neither.
#![tactic(auto)]

mod law;
mod refusals;

pub use law::{a_text_that_reads_is_within_its_limits, each_limit_has_its_refusal};
pub use refusals::reading_stops_for_a_cause;
