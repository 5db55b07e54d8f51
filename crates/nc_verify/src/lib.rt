//! The verdict of two tapes and the settings of the cell.
//!
//! [`verdict`] accepts exactly the texts whose settings are allowed, whose tapes read and whose
//! flows are an accepted pair, and else tells their one refusal. [`Verified`] is what was accepted:
//! whoever holds one need not ask again. [`write_verdict`] prints the answer.
//!
//! Every crate that runs a pair or tells of one takes a [`Verified`].
#![tactic(auto)]

mod laws;
mod meeting;
mod putting;
mod refusal;
mod tape;
mod verified;
mod verifying;
mod writing;

pub use laws::{accepted_texts_are_not_refused, texts_have_one_refusal};
pub use meeting::meet;
pub use putting::put_piece;
pub use refusal::Refusal;
pub use tape::{read_tape, skips_of};
pub use verified::Verified;
pub use verifying::{settings_of, verdict};
pub use writing::write_verdict;

// For users of the library: laws that no crate of the program takes.
pub use laws::no_texts_are_without_an_answer;
