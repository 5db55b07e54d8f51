//! Whether two tapes wait for each other in one order, read for their waits alone.
//!
//! Each block is read for what it does to the order of blocks, and goes on to the next one if it
//! says nothing of that. So a pair is judged also if the run of it would refuse its codes. It is judged
//! at every position of the block-skip switches that its tapes name.
//! [`verdict`] answers the meetings of both paths and what was taken on trust, or the one refusal of
//! the pair; [`push_waits`] is the text of an accepted pair.
#![tactic(auto)]

mod hangings;
mod laws;
mod pair;
mod printing;
mod standing;
mod switches;
mod tape;
mod verifying;

pub use laws::{accepted_pairs_are_not_refused, pairs_have_one_refusal};
pub use pair::WaitPair;
pub use printing::push_waits;
pub use standing::Standing;
pub use switches::{LAST_POSITION, Spot};
pub use verifying::verdict;

// For users of the library: laws that no crate of the program takes.
pub use laws::{
    a_switch_is_named_by_a_sign, accepted_pairs_do_not_wait_in_vain, no_pair_is_without_an_answer,
    what_a_run_accepts_is_accepted,
};
