//! What a command does with the journal of a run, for a program that locks the journal's file.
ghost use Rattle.std.specs.Prelude.{◌≡◌};
ghost use Rattle.command_words.specs.Listed.{journal_of};

use crate::command::Command;

/// What a command does with the journal of a run.
#[derive(Clone, Copy, Debug, PartialEq, Eq)]
pub enum Journal {
    /// The command leaves the journal alone.
    None,
    /// The command reads the journal and changes nothing in it.
    Look,
    /// The command may write to the journal.
    Write,
}

/// What a program that was asked for this does with the journal: nothing, if its words are no
/// command.
pub fn journal_of(command: &Option<Command>) -> Journal
    ensures { result ≡ journal_of command.now }
{
    match command {
        Some(command) => command.journal_use(),
        None => Journal::None,
    }
}
