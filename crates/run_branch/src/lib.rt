//! A second journal that stands for a run up to its n-th meeting, so that another continuation can
//! be tried.
//!
//! [`branch`] takes the header and the records of a run, and writes the shortest prefix of them
//! that has n meetings onto another disk: all bodies at once, behind a shut gate, which is then
//! opened. The layer above leans on this: a crash at any moment leaves that disk as it was, or no
//! run there, or the whole branch; a run that is there is never written over; and what is left of a
//! branch opens as exactly its records ([`a_branch_opens_as_its_records`]).
#![tactic(auto)]

mod branching;
mod fault;
mod laws;

pub use branching::branch;
pub use fault::BranchFault;

// For users of the library: laws that no crate of the program takes.
pub use laws::{a_branch_opens_as_its_records, a_branch_point_is_the_least};
