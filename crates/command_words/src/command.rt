//! A command of the program, with its names and numbers. making.rt makes it of the words. A further
//! command is a variant here and a row in table.rt.
ghost use Rattle.std.specs.Prelude.{◌≡◌, ℕ, List, IfOk, option_map, string_bytes};

use crate::journal::Journal;
use std::alloc::{AllocError, Global};
use std::marker::Model;

/// A file's name, just as the words have it. It may be empty.
#[derive(Debug, Drop)]
pub struct Name {
    /// The bytes of the name.
    text: String,
}

impl Model for Name {
    ghost Value = { List ℕ };

    ghost view = { λ name. string_bytes name.text };
}

impl Name {
    /// The name that a text has, in memory of its own. The only error is that memory runs out.
    pub(crate) fn new(alloc: Global, text: &str) -> Result<Name, AllocError>
        ensures { IfOk result (λ name. name ≡ text.now) }
    {
        Ok(Name {
            text: String::from_str(alloc, text)?,
        })
    }

    /// The name as text, just as the words have it.
    pub fn as_str(&self) -> &str
        ensures { result.now ≡ self.now }
    {
        self.text.as_str()
    }

    /// The bytes of the name.
    pub fn as_slice(&self) -> &[u8]
        ensures { result.now ≡ self.now }
    {
        self.text.as_bytes()
    }
}

/// The files to which the turrets write what they get, if they were named. Neither name is empty.
#[derive(Debug, Drop)]
pub struct TurretFiles {
    /// The file of the turret of path 1.
    pub one: Option<Name>,
    /// The file of the turret of path 2.
    pub two: Option<Name>,
}

/// The programs whose O numbers lie in a range, both ends included: from 1 to 9,999, the least not
/// above the greatest.
#[derive(Clone, Copy, Debug, PartialEq, Eq)]
pub struct ProgramRange {
    /// The first O number of the range.
    pub least: u16,
    /// The last O number of the range.
    pub greatest: u16,
}

/// What the program is asked to do. Tapes are named before the settings, path 1 first; the settings
/// may be left out, and then they are empty.
#[derive(Debug, Drop)]
pub enum Command {
    /// Judge a pair of tapes under settings.
    Verify(Name, Name, Option<Name>),
    /// Judge the waits of a pair of tapes under settings, where the tapes may lack the programs of
    /// the range.
    Waits(Name, Name, Option<Name>, Option<ProgramRange>),
    /// List the races of a pair of tapes under settings.
    Races(Name, Name, Option<Name>),
    /// Trace the run of a pair of tapes under settings, of at most this many blocks.
    Trace(Name, Name, Option<Name>, u32),
    /// Run a pair of tapes under settings, for at most this many blocks.
    Run(Name, Name, Option<Name>, u32, TurretFiles),
    /// Go on with the run in the journal, for at most this many blocks.
    Resume(u32, TurretFiles),
    /// Make these edits of offsets and variables in the run in the journal.
    Edit(Name),
    /// Print the moves of the run in the journal.
    Moves,
    /// Print the state of the run in the journal.
    State,
    /// Judge by these zones where both turrets of the run in the journal may come to one place.
    Zones(Name),
    /// Judge by these zones, which are named first, where both turrets of a pair of tapes under
    /// settings may come to one place in the run whose paths take turns.
    ZonesOf(Name, Name, Name, Option<Name>),
    /// Write the run in the journal up to its meeting of this number into a second journal.
    Branch(u32),
    /// Make the pair of tapes of this number and run it.
    Make(u32, TurretFiles),
    /// Write out the roughing cycles of a tape as plain blocks.
    Expand(Name),
    /// Write out a shop's tape under settings in the language that the control runs.
    Plain(Name, Option<Name>),
}

impl Command {
    ghost use Rattle.command_words.specs.Listed.{files_in, journal_use};

    /// The files of the turrets, if the command is one that takes any.
    pub fn turret_files(&self) -> Option<&TurretFiles>
        ensures { option_map (λ files. files.now) result ≡ files_in self.now }
    {
        match self {
            Command::Run(_, _, _, _, files) => Some(files),
            Command::Resume(_, files) => Some(files),
            Command::Make(_, files) => Some(files),
            Command::Verify(_, _, _) => None,
            Command::Waits(_, _, _, _) => None,
            Command::Races(_, _, _) => None,
            Command::Trace(_, _, _, _) => None,
            Command::Edit(_) => None,
            Command::Moves => None,
            Command::State => None,
            Command::Zones(_) => None,
            Command::ZonesOf(_, _, _, _) => None,
            Command::Branch(_) => None,
            Command::Expand(_) => None,
            Command::Plain(_, _) => None,
        }
    }

    /// What the command does with the journal of a run.
    pub fn journal_use(&self) -> Journal
        ensures { result ≡ journal_use self.now }
    {
        match self {
            Command::Verify(_, _, _) => Journal::None,
            Command::Waits(_, _, _, _) => Journal::None,
            Command::Races(_, _, _) => Journal::None,
            Command::Trace(_, _, _, _) => Journal::None,
            Command::Run(_, _, _, _, _) => Journal::Write,
            Command::Resume(_, _) => Journal::Write,
            Command::Edit(_) => Journal::Write,
            Command::Moves => Journal::Look,
            Command::State => Journal::Look,
            Command::Zones(_) => Journal::Look,
            Command::ZonesOf(_, _, _, _) => Journal::None,
            Command::Branch(_) => Journal::Look,
            Command::Make(_, _) => Journal::Write,
            Command::Expand(_) => Journal::None,
            Command::Plain(_, _) => Journal::None,
        }
    }
}
