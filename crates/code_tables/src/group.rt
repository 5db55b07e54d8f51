//! The modal groups, by Fanuc's numbers. Which code is of which group is in system.rt.

/// Codes that count in their own block alone.
pub const ONE_SHOT_GROUP: u8 = 0;
/// What a block with an axis word does: rapid, feed, arc, thread or cycle.
pub const MOTION_GROUP: u8 = 1;
/// Constant surface speed, or a speed of the spindle.
pub const SPINDLE_GROUP: u8 = 2;
/// Absolute or incremental input. System A has no such codes: there the letters tell.
pub const ABSOLUTE_GROUP: u8 = 3;
/// Feed by the minute or by the revolution.
pub const FEED_GROUP: u8 = 5;
/// Inch or metric input.
pub const UNIT_GROUP: u8 = 6;
/// Compensation of the nose radius.
pub const NOSE_GROUP: u8 = 7;
/// The work offset in force.
pub const WORK_GROUP: u8 = 14;
/// Codes that are accepted and change nothing. The number is this control's own.
pub const IDLE_GROUP: u8 = 90;

/// The code of work offset 1, and of its group the least.
pub const FIRST_WORK_CODE: u16 = 54;
/// The code of work offset 6, and of its group the greatest.
pub const LAST_WORK_CODE: u16 = 59;
