//! The forms of G71 and G70 in the blocks of a tape.
//!
//! `parts_of` finds the parts of a tape that its roughing cycles stand for, in the order of the
//! text, or the first block with G70 or G71 that is part of no form, or with G91 or G20. A `Part` is
//! sound by its type: the moves of its blocks never enter its contour (`a_sound_part_is_clear`).
#![tactic(auto)]

mod contour;
mod fault;
mod finish;
mod form;
mod head;
mod marks;
mod part;
mod sizes;
mod walk;
mod words;

pub use fault::CycleFault;
pub use marks::marks_of;
pub use part::{Part, PartKind, a_sound_part_is_clear};
pub use sizes::check_sizes;
pub use walk::parts_of;
