//! What is known of a path. behind.rt takes it over a block.
ghost use Rattle.std.specs.Prelude.{◌≡◌};
ghost use Rattle.known_blocks.specs.Known.{unknown, nowhere, counted};

use code_tables::CodeKind;
use nc_number::Var;

/// What is known of a path; `None` is not known.
#[derive(Clone, Copy, Debug, PartialEq, Eq)]
pub struct Known {
    /// Where the tool is in X as the program counts, a diameter in 0.001 mm.
    pub x: Option<i64>,
    /// Where it is in Z, in 0.001 mm.
    pub z: Option<i64>,
    /// What a block with an axis word does.
    pub motion: Option<CodeKind>,
    /// Whether X and Z are how far a block goes.
    pub incremental: Option<bool>,
    /// Whether F is by the revolution.
    pub per_rev: Option<bool>,
    /// What F set last.
    pub feed: Option<Var>,
    /// The whole number of the last T word.
    pub tool: Option<u32>,
}

impl Known {
    /// Nothing is known.
    pub fn nothing() -> Known
        ensures { result ≡ unknown }
    {
        Known {
            x: None,
            z: None,
            motion: None,
            incremental: None,
            per_rev: None,
            feed: None,
            tool: None,
        }
    }

    /// The same, but nothing of X and Z.
    pub(crate) fn nowhere(&self) -> Known
        ensures { result ≡ nowhere self.now }
    {
        Known {
            x: None,
            z: None,
            ..*self
        }
    }

    /// The same, but nothing of X and Z if the zero from which they count may have changed.
    pub(crate) fn counted(&self, shifted: bool) -> Known
        ensures { result ≡ counted shifted self.now }
    {
        if shifted { self.nowhere() } else { *self }
    }
}
