//! What a block says of an axis: nothing, an absolute length or an incremental one.
ghost use Rattle.std.specs.Prelude.{◌≡◌, ◌≤◌, ℕ, IfSome, unsigned_abs};

/// What a block says of an axis, in 0.001 mm.
#[derive(Clone, Copy, Debug, PartialEq, Eq)]
pub enum Axis {
    /// Nothing: the axis stays.
    Keep,
    /// An absolute word, in programmed coordinates.
    To(i64),
    /// An incremental word.
    By(i64),
}

impl Axis {
    ghost use Rattle.nc_number.specs.Axes.{axis_of, is_named, IsAxisWithin};

    /// What an absolute word (X or Z) and an incremental one (U or W) say of their axis.
    ///
    /// A block has at most one of the two. Where a caller has both, the absolute word counts.
    pub fn of(absolute: Option<i64>, relative: Option<i64>) -> Axis
        ensures told { result ≡ axis_of absolute relative }
        ensures range { (far : ℕ) → IfSome absolute (λ n. unsigned_abs n ≤ far)
            → IfSome relative (λ n. unsigned_abs n ≤ far) → IsAxisWithin far result }
    {
        match (absolute, relative) {
            (Some(programmed), _) => Axis::To(programmed),
            (None, Some(way)) => Axis::By(way),
            (None, None) => Axis::Keep,
        }
    }

    /// Whether the block has a word of the axis.
    pub fn is_named(self) -> bool
        ensures { result ≡ is_named self }
    {
        match self {
            Axis::Keep => false,
            Axis::To(_) | Axis::By(_) => true,
        }
    }
}
