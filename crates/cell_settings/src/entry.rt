//! What one line of the settings says: a variant for each name. named.rt reads a line, settings.rt
//! takes what it says. For this crate alone; a further name is a variant here.
use crate::preset::Preset;
use code_tables::System;
use nc_number::{Path, Point};

/// What a line of the settings says.
#[derive(Clone, Copy, Debug, PartialEq, Eq)]
pub(crate) enum Entry {
    /// An empty line, or a comment.
    Nothing,
    /// The first and the last waiting code.
    Wait { low: u16, high: u16 },
    /// How many variables from #100 on are shared.
    Shared100(u32),
    /// How many variables from #500 on are shared.
    Shared500(u32),
    /// Whether the P of a wait names the paths by bits.
    Paths { bits: bool },
    /// The system of the tapes' G codes.
    Codes { system: System },
    /// A path, and a switch that is fixed as on, 1 to 9.
    Skip { path: Path, switch: u8 },
    /// A path, and a switch that is fixed as off, 1 to 9.
    Unskip { path: Path, switch: u8 },
    /// Where the turret of a path stands at the start.
    Place { path: Path, to: Point },
    /// The reference position of a path.
    Home { path: Path, to: Point },
    /// An offset that a path begins with.
    Offset(Preset),
    /// How many records the journal may have.
    Records(u32),
}
