//! The law that the walk of plain_blocks over the blocks of a program is a relation: each block stays,
//! or the first form that takes it writes it out, with those behind it that it takes along. For users of
//! the library: no other crate takes it.
#![tactic(auto)]

mod law;

pub use law::the_walk_is_the_relation;
