//! Why two tapes make no pair: too many labels, 70, or labels that differ, 72.
use nc_number::Cause;
use thiserror::Error;

/// Why two tapes make no pair: a path has too many labels, 70, or the labels of the paths differ,
/// 72.
#[derive(Clone, Copy, Debug, PartialEq, Eq, Error)]
#[error("refusal {number} of path {path} at line {line} against line {other} after {after} labels")]
pub struct PairFault {
    /// The number of the refusal.
    pub number: u8,
    /// 1 if the labels differ; else 0, and the caller knows the path.
    pub path: u8,
    /// The line of path 1's label where the labels differ first; else 0.
    pub line: u32,
    /// The line of path 2's label there; else 0.
    pub other: u32,
    /// How many labels before it are equal; else 0.
    pub after: u32,
}

impl PairFault {
    ghost use Rattle.std.specs.Prelude.{◌≡◌};
    ghost use Rattle.label_list.specs.Faults.{too_many, mismatch};

    /// A path has more labels than it may.
    pub(crate) fn too_many_labels() -> Self
        ensures { result ≡ too_many }
    {
        PairFault {
            number: Cause::TooManyLabels.number(),
            path: 0,
            line: 0,
            other: 0,
            after: 0,
        }
    }

    /// The labels differ after so many equal ones, at these lines.
    pub(crate) fn mismatch(after: u32, line: u32, other: u32) -> Self
        ensures { result ≡ mismatch after line other }
    {
        PairFault {
            number: Cause::WaitMismatch.number(),
            path: 1,
            line,
            other,
            after,
        }
    }
}
