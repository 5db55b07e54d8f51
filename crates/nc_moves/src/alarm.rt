//! The alarm that ended a path. Its numbers are those of nc_number.
use nc_number::{Path, Value};

/// The alarm that ended a path.
#[derive(Clone, Copy, Debug, PartialEq, Eq)]
pub struct Alarm {
    /// The path that it ended.
    pub path: Path,
    /// The line of the block that raised it.
    pub line: u32,
    /// The number of the alarm.
    pub cause: u8,
    /// What the macro alarm `#3000=` was given, and 0 for every other cause.
    pub value: Value,
}
