//! Two paths over the orders of their blocks, whatever else their blocks do.
//!
//! A block is known here by its control alone, so the law holds of every machine whose blocks go
//! where their controls lead: it speaks of no variable, no move and no machine of this repository.
#![tactic(auto)]

mod laws;

pub use laws::no_pair_waits_in_vain;
