//! The labels of a path: what its tape comes to that the other path can tell, in order.
//!
//! [`labels`] and [`labels_of_order`] unfold the calls of loud programs (a loud program has a wait
//! or an end, or calls one that has), and make the labels of each program once. [`compare`] tells
//! whether two paths come to the same labels, and where they first differ. Two tapes whose lists
//! agree are an accepted pair.
#![tactic(auto)]

mod comparison;
mod fault;
mod labelled;
mod laws;
mod list;
mod listing;
mod ordered;
mod piece;

pub use comparison::compare;
pub use fault::PairFault;
pub use labelled::Labelled;
pub use laws::a_pair_is_accepted_by_its_lists;
pub use list::LabelList;
pub use ordered::labels_of_order;

// For users of the library: what no crate of the program takes.
pub use laws::{labels_are_those_of_the_blocks, labels_hang_on_no_number_of_calls};
pub use listing::labels;
