//! What a G code means, as tables that a machine builder can read: one for each of Fanuc's systems
//! A and B.
//!
//! A `CodeTable` has a row for each code of a system: the code, its modal group, and its kind, which
//! is what the code does whatever its number. No code stands twice. Looking up a code gives its row,
//! and of several codes of one group the last one counts. These contracts hold for a table of any
//! number of rows, so that a system is a table and nothing else. `row_of_code` looks a code up in
//! the table of a system.
#![tactic(auto)]

mod group;
mod kind;
mod row;
mod system;
mod table;

pub use group::{
    ABSOLUTE_GROUP, FEED_GROUP, FIRST_WORK_CODE, IDLE_GROUP, LAST_WORK_CODE, MOTION_GROUP,
    NOSE_GROUP, ONE_SHOT_GROUP, SPINDLE_GROUP, UNIT_GROUP, WORK_GROUP,
};
pub use kind::CodeKind;
pub use row::{Row, last_of_group};
pub use system::{System, row_of_code};
pub use table::CodeTable;

// For users of the library: what no crate of the program takes.
pub use system::{system_a, system_b};
