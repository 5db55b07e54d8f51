//! The form of compensation of the nose radius: the blocks from G41 or G42 to G40, lines of G00 and
//! G01, written out as the moves of the tool's point, by the radius and the tip of the tool's nose. A
//! nose of radius 0 leaves the points as they are programmed.
#![tactic(auto)]

mod cut;
mod form;
mod law;
mod path;
mod run;
mod said;
mod told;
mod written;

pub use form::nose_form;

// For readers: a law that no crate of the program takes.
pub use law::a_written_nose_keeps_its_radius;
