//! The maker of made pairs.
//!
//! From one number it writes a tape for each of the lathe's two paths: fifty rounds of ninety-eight
//! cuts, a statement on a variable and a wait, with which users and benchmarks have a realistic load
//! without a file. The text is promised byte for byte, and laws beside it say how many lines a tape
//! has and that both tapes wait for each other at the same codes in the same order.
#![tactic(auto)]

mod laws;
mod tape;

pub use nc_number::{NoMemory, Path};
pub use tape::{LONGEST_MADE, make_tapes};

// For users of the library: laws that no crate of the program takes.
pub use laws::{law_of_cuts, law_of_lines, law_of_sizes, law_of_waits};
