//! A block-skip switch on which the waits or the end of a path depend. `waits` prints it behind the
//! meetings; trusting.rt keeps the list of them.

/// A block-skip switch that changes the list of a path's waits and its end, with the line of the
/// first label that it changes, for each path that it changes.
#[derive(Clone, Copy, Debug, PartialEq, Eq)]
pub struct Hanging {
    /// The switch, 1 to 9.
    pub switch: u8,
    /// The line on path 1's tape, if its list changes.
    pub one: Option<u32>,
    /// The line on path 2's tape, if its list changes.
    pub two: Option<u32>,
}
