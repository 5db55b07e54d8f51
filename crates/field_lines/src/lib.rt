//! The lines of a text of entries: settings, and other texts that are written like them.
//!
//! A line has fields, which spaces separate, and a field is a name, a number, a path, or a length of
//! an axis. To the crates above it promises that what it reads is what the definitions in `specs/`
//! say of the bytes. A text of entries is then a table of names: what the fields of a line say, and
//! where a line is refused.
#![tactic(auto)]

mod field;
mod length;
mod line;

pub use field::{number_in, read_path};
pub use length::read_point;
pub use line::{cut_line, line_fields};
