//! The modal state of a path: what one block leaves in force for the next.
//!
//! Of the G codes of a block the last one of each group is in force after it; a group that the block
//! does not name keeps its code. What F, S and T say stays until they say otherwise. The layer above
//! leans on `Modal::take` and `Modal::take_values`, which are exactly that, and on what the type
//! keeps: one of G54 to G59 is in force, the tool offset exists, and a cycle ends at a position.
#![tactic(auto)]

mod fault;
mod modal;
mod words;

pub use fault::ModalFault;
pub use modal::Modal;
pub use words::{ModalWords, SpeedWord};
