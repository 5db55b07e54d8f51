//! The recovery of a run: after a power cut, from its journal alone, the machine as it stood.
//!
//! [`recover`] opens the journal of a disk, has the texts of its header judged anew, and does its
//! records again, each one checked against those before it. What it answers is exactly what the
//! file stands for: the pair, a history of it with the machine behind that history, and the
//! journal, ready for the next record; or the one reason why it stands for none. The layers above
//! lean on that, and on the laws that an image of a run is never bad, and that all runs and
//! restarts make one history.
#![tactic(auto)]

mod fault;
mod laws;
mod pair;
mod rebuilding;
mod recovery;
mod replay;

pub use fault::RestartFault;
pub use laws::{
    a_machine_hangs_on_its_texts, an_image_of_a_run_is_never_bad, an_image_stands_for_one_run,
    no_history_is_stuck,
};
pub use recovery::{Recovered, recover};

// For users of the library: laws that no crate of the program takes.
pub use laws::{no_accepted_pair_is_stuck, restarts_make_one_history};
