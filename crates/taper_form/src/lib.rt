//! The forms of G90 and G94 (G77 and G79 in system B) with a taper R, as plain blocks: a rapid to
//! where the taper's line begins, the cut along it, the cut off the part, and the rapid back to the
//! start. A block that begins a run of such cuts is written out, with the blocks after it that cut
//! with its X, Z, R and F in force, or refused with its cause.
#![tactic(auto)]

mod cut;
mod form;
mod kind;
mod law;
mod run;

pub use form::taper_form;
pub use kind::begins_cut;

// For users of the library: what no crate of the program takes.
pub use cut::TaperCut;
pub use kind::TaperKind;
pub use law::{a_taper_is_cut_as_its_words_say, a_written_taper_is_that_of_its_words};
