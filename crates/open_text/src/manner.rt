//! By what a text is opened: the switches that are on, how its jumps name their targets, and whether
//! it calls programs.

/// How the jumps of a text name their targets.
#[derive(Clone, Copy, Debug, PartialEq, Eq)]
pub enum Jumps {
    /// By numbers that are written out.
    Written,
    /// One of them at least by a variable or an expression, and so any number may be meant.
    Computed,
}

/// Whether a text calls programs.
#[derive(Clone, Copy, Debug, PartialEq, Eq)]
pub enum Calls {
    /// It has no M98 and no G65.
    Never,
    /// It has one at least.
    Any,
}

/// By what a text is opened.
#[derive(Clone, Copy, Debug, PartialEq, Eq)]
pub struct Manner {
    /// The block-skip switches that are on: bit n is switch n.
    pub skips: u16,
    /// How the jumps of the text name their targets.
    pub jumps: Jumps,
    /// Whether the text calls programs.
    pub calls: Calls,
}
