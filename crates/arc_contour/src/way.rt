//! Which way the passes over a contour run.

/// Which way the passes over a contour run. A contour is seen so that passes run along its Z and
/// lie one below the other in its X: for a cycle that faces, the X and Z of a tape are exchanged.
#[derive(Clone, Copy, Debug, PartialEq, Eq)]
pub enum Way {
    /// Along the axis of the spindle, as G71 cuts: X is a diameter.
    Along,
    /// Across it, as G72 faces: Z is a diameter.
    Across,
}
