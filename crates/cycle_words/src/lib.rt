//! What the forms of threads, grooves and holes share: numbers of words and why they are refused,
//! where a cycle starts, the code of motion before it, and plain blocks as lines.
#![tactic(auto)]

mod causes;
mod lines;
mod motion;
mod numbers;
mod scenes;

pub use causes::{are_taken, calculated_in, first_cause, missing_of, no_count_in, unexpected_in};
pub use lines::{lines_of, push_lines};
pub use motion::{push_code_before, scene_cause};
pub use numbers::{count_or, count_said, is_said, length_or, length_said, place_said, value_said};
pub use scenes::{has_motion, refused, says_ends, start_of, way_cause, words_of};
