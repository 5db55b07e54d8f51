//! Why a pair is refused: the number, the path and the lines. writing.rt writes it as a line.
ghost use Rattle.std.specs.Prelude.{◌≡◌};
ghost use Rattle.nc_verify.specs.Refusals.{at_setting, at_line, too_long, mismatch, at_position};

use cell_settings::SettingFault;
use label_list::PairFault;
use nc_number::{Cause, Path};
use thiserror::Error;

/// Why a pair is refused, and where.
#[derive(Clone, Copy, Debug, PartialEq, Eq, Error)]
#[error("refusal {number} of path {path} at line {line}")]
pub struct Refusal {
    /// The number of the refusal.
    pub number: u8,
    /// The path whose tape is refused, 1 or 2; 0 if the settings are; 1 if the labels differ.
    pub path: u8,
    /// The line that the refusal is about, counted from 1; if the labels differ, that of path 1's
    /// label; 0 if a path has too many labels.
    pub line: u32,
    /// If the labels differ, the line of path 2's label; else 0.
    pub other: u32,
    /// If the labels differ, how many labels before are equal; else 0.
    pub after: u32,
    /// The block-skip switches that are on in both paths at the position where the pair is refused:
    /// bit n is switch n. It is 0 for a refusal that does not depend on a position of the switches.
    pub switches: u16,
}

impl Refusal {
    /// The refusal of the settings for a line that is not allowed.
    pub fn at_setting(fault: SettingFault) -> Self
        ensures { result ≡ at_setting fault.line }
    {
        Refusal {
            number: fault.number(),
            path: 0,
            line: fault.line,
            other: 0,
            after: 0,
            switches: 0,
        }
    }

    /// The refusal of a path's tape at a line by this number.
    pub fn at_line(path: Path, line: u32, number: u8) -> Self
        ensures { result ≡ at_line path line number }
    {
        Refusal {
            number,
            path: path.number(),
            line,
            other: 0,
            after: 0,
            switches: 0,
        }
    }

    /// The refusal of a path that has too many labels.
    pub fn too_long(path: Path) -> Self
        ensures { result ≡ too_long path }
    {
        Refusal::at_line(path, 0, Cause::TooManyLabels.number())
    }

    /// The refusal of a pair whose labels differ.
    pub fn mismatch(fault: PairFault) -> Self
        ensures { result ≡ mismatch fault }
    {
        Refusal {
            number: fault.number,
            path: fault.path,
            line: fault.line,
            other: fault.other,
            after: fault.after,
            switches: 0,
        }
    }

    /// This refusal, told at a position of the block-skip switches: bit n is switch n.
    pub fn at_position(self, switches: u16) -> Self
        ensures { result ≡ at_position switches self }
    {
        Refusal { switches, ..self }
    }
}
