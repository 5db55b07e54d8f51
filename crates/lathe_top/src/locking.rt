//! That what command_words says of a command and the journal is what the command does. The law is
//! the contract of a function that does nothing. No crate calls it. It says that a program that
//! locks the journal by `journal_of` (command_words) locks it rightly.
ghost use Rattle.std.specs.Prelude.{◌≡◌, Option};
ghost use Rattle.command_words.specs.declared.command.Command.{Command};
ghost use Rattle.command_words.specs.Listed.{journal_of};
ghost use Rattle.lathe_top.specs.Kinds.{journal_for, kind_of};

/// What is said of a command and the journal is what the kind of the command does with it: a program
/// that locks the journal by `journal_of` locks it for each command that writes to it, looks at it
/// for each that reads it, and leaves it alone for all others and for words that are no command.
pub fn a_command_uses_the_journal_as_its_kind_does()
    ensures { (asked : Option Command) → journal_of asked ≡ journal_for (kind_of asked) }
{}
