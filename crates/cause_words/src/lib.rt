//! What each number of a refusal, of an alarm or of a fault of the journal means, in English, for
//! those who show it to a user. The numbers and names themselves are in nc_number.
#![tactic(auto)]

mod meanings;
mod naming;

pub use meanings::meaning;
pub use naming::{meaning_bytes, name_bytes};
