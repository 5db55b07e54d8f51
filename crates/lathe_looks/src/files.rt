//! The files that a command names: their kinds, and how many bytes each may have. fetching.rt reads
//! them.
ghost use Rattle.std.specs.Prelude.{◌≡◌};
ghost use Rattle.lathe_looks.specs.Named.{most_bytes};

use lathe_calls::LONGEST_SETTINGS;
use nc_number::{Both, LONGEST_TAPE};

/// Which of the files of a command.
#[derive(Clone, Copy, Debug, PartialEq, Eq)]
pub enum CommandFile {
    /// The tape of path 1.
    Left,
    /// The tape of path 2.
    Right,
    /// The settings of the cell.
    Settings,
    /// A tape by itself.
    Tape,
    /// The file of `zones`: how the paths lie in one cell.
    Zones,
    /// The file of `edit`: what an operator corrects.
    Edits,
}

impl CommandFile {
    /// The most bytes that a file of this kind may have.
    pub(crate) fn most_bytes(self) -> usize
        ensures { result ≡ most_bytes self }
    {
        match self {
            CommandFile::Left | CommandFile::Right | CommandFile::Tape => LONGEST_TAPE,
            CommandFile::Settings | CommandFile::Zones | CommandFile::Edits => LONGEST_SETTINGS,
        }
    }
}

/// The names of the files of a pair. Without a name the settings are empty.
#[derive(Clone, Copy, Debug)]
pub struct FileNames<'a> {
    /// The names of the tapes, by path.
    pub tapes: Both<&'a str>,
    /// The name of the settings, if they are named.
    pub settings: Option<&'a str>,
}
