//! The order of a tape's blocks, judged: no jump passes a wait or another mark (an end, an M99
//! without a number, a call that leads to a wait or an end), and no ninth call leads to a wait or
//! an end.
//!
//! [`check_order`] answers the order of a tape in which nothing is wrong, or the tape's first fault.
//! Computed GOTOs, and the returns of long programs, may lead to any of several numbers: where such
//! a search may pass a wait is found in one walk over the numbers, not for each block anew.
#![tactic(auto)]

mod checking;
mod deep;
mod depth;
mod search;
mod search_strays;
mod searchers;
mod searches;
mod stretch;
mod view;
mod waiting;
mod ways;

pub use checking::check_order;
