//! The grammar of the command line, built for `clap` from the rows of command_words. reading.rt
//! reads the program's words by it. A further command needs nothing here.
ghost use Rattle.std.specs.Prelude.{◌≡◌, IfOk, false};
ghost use Rattle.clap.specs.Words.{rule_of};
ghost use Rattle.clap_reading.specs.Grammar.{IsRead, app_of_row, bare_app, further_rule, name_rule, option_rule, program_app, with_names, with_words};
ghost use Rattle.command_words.specs.Table.{row_seen};

use clap::{Arg, Command};
use command_words::{Row, rows};
use std::alloc::{AllocError, Global};

/// The program's command: it requires a subcommand, one for each row, and offers neither help nor a
/// version. The only error is out of memory.
pub fn program<'a>(alloc: Global) -> Result<Command<'a>, AllocError>
    ensures { IfOk result (IsRead program_app) }
{
    let mut program = bare(alloc);
    let rows = rows();
    for row in rows {
        program = program.subcommand(subcommand(alloc, row)?)?;
    }
    Ok(program)
}

/// The program's command before its rows are added: it requires a subcommand and offers no help.
fn bare<'a>(alloc: Global) -> Command<'a>
    ensures { IsRead bare_app result }
{
    Command::new(alloc, "twin_lathe")
        .disable_help_flag(true)
        .disable_help_subcommand(true)
        .subcommand_required(true)
}

/// The subcommand of a row, with its words and options. The only error is out of memory.
fn subcommand<'a>(alloc: Global, row: &Row) -> Result<Command<'a>, AllocError>
    ensures { IfOk result (IsRead (app_of_row (row_seen row.now))) }
{
    let mut command = worded(alloc, row)?;
    for id in row.options {
        command = command.arg(optional(alloc, id))?;
    }
    Ok(command)
}

/// The subcommand of a row with its words alone, those that may be left out too. The only error is
/// out of memory.
fn worded<'a>(alloc: Global, row: &Row) -> Result<Command<'a>, AllocError>
    ensures { IfOk result (IsRead (with_words (row_seen row.now))) }
{
    let mut command = named(alloc, row)?;
    for id in row.further {
        command = command.arg(further(alloc, id))?;
    }
    Ok(command)
}

/// The subcommand of a row with the words alone that it requires. The only error is out of memory.
fn named<'a>(alloc: Global, row: &Row) -> Result<Command<'a>, AllocError>
    ensures { IfOk result (IsRead (with_names (row_seen row.now))) }
{
    let mut command = Command::new(alloc, row.name);
    for id in row.words {
        command = command.arg(wanted(alloc, id))?;
    }
    Ok(command)
}

/// The argument of a word that must be given.
fn wanted<'a>(alloc: Global, id: &'a str) -> Arg<'a>
    ensures rule { rule_of result ≡ name_rule id.entry.now }
    ensures local { result.global ≡ false }
{
    Arg::new(alloc, id).required(true)
}

/// The argument of a word that may be left out.
fn further<'a>(alloc: Global, id: &'a str) -> Arg<'a>
    ensures rule { rule_of result ≡ further_rule id.entry.now }
    ensures local { result.global ≡ false }
{
    Arg::new(alloc, id)
}

/// The argument of an option with a text, which is called by its name.
fn optional<'a>(alloc: Global, id: &'a str) -> Arg<'a>
    ensures rule { rule_of result ≡ option_rule id.entry.now }
    ensures local { result.global ≡ false }
{
    Arg::new(alloc, id).long(id)
}
