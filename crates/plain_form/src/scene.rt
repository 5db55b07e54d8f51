//! What is known before the block that a form is asked for.
use code_tables::{CodeKind, System};
use nc_number::Value;

/// The unit of the lengths of a tape.
#[derive(Clone, Copy, Debug, PartialEq, Eq)]
pub enum Unit {
    /// G21: a length without a point counts 0.001 mm.
    Millimetre,
    /// G20: a length without a point counts 0.0001 inch.
    Inch,
}

/// What is known before a block; `None` is not known.
#[derive(Clone, Copy, Debug, PartialEq, Eq)]
pub struct Scene {
    /// The system of the G codes.
    pub system: System,
    /// The unit of lengths, as the tape says it from its first block to this one; `None` where two
    /// ways to the block may leave different units.
    pub unit: Option<Unit>,
    /// Where the tool is in X as the program counts, a diameter in 0.001 mm.
    pub x: Option<i64>,
    /// Where it is in Z, in 0.001 mm.
    pub z: Option<i64>,
    /// What a block with an axis word does.
    pub motion: Option<CodeKind>,
    /// Whether X and Z are how far a block goes (G91).
    pub incremental: Option<bool>,
    /// Whether F is by the revolution.
    pub per_rev: Option<bool>,
    /// The feed that F set last.
    pub feed: Option<Value>,
    /// The whole number of the last T word.
    pub tool: Option<u32>,
}
