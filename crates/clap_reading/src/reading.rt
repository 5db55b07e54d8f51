//! The program's words, read by `clap`: from the words to the command. What a command does is not
//! known here.
ghost use Rattle.std.specs.Prelude.{◌≡◌, ◌++◌, IfOk, IsErrOf, OnOk, map, option_map, string_bytes};
ghost use Rattle.clap.specs.Words.{first_of, found_of, rows_of};
ghost use Rattle.clap.specs.Simple.{subcommand_rows_of};
ghost use Rattle.command_words.specs.Listed.{listed_command};
ghost use Rattle.command_words.specs.Making.{Answers, texts_seen};
ghost use Rattle.command_words.specs.Table.{row_seen};
ghost use Rattle.clap_reading.specs.ClapReading.{clap_command, command_from, command_in, command_met, fault_by, command_of_line, further_in, given_name, line_of, names_in, names_of, text_at, texts_at};

use crate::grammar::program;
use crate::law::law_of_clap;
use clap::ArgMatches;
use clap::error::ErrorKind;
use command_words::{Command, OptionTexts, Row, WordsFault, command_of, row_named, takes_option};
use std::alloc::{AllocError, Global};

/// The command that the words give. They do not hold the program's own name.
///
/// Errors: `Usage` exactly if the grammar of the command line has no command for the words;
/// `NoMemory` only if memory ran out.
pub fn read_words(alloc: Global, words: &[String]) -> Result<Command, WordsFault>
    ensures command { IfOk result (λ command. listed_command (map string_bytes words.now) ≡ Some command) }
    ensures usage { IsErrOf result WordsFault.Usage → listed_command (map string_bytes words.now) ≡ None }
{
    law_of_clap();
    let line = line_of(alloc, words)?;
    command_of_line(alloc, line.as_slice())
}

/// The words with the program's name before them. The only error is out of memory.
fn line_of<'a>(alloc: Global, words: &'a [String]) -> Result<Vec<&'a str>, AllocError>
    ensures { IfOk result (λ line. map (λ s. s.now) line.items ≡ line_of (map string_bytes words.now)) }
{
    let mut line = Vec::new(alloc);
    line.push("twin_lathe")?;
    for word in words {
        line.push(word.as_str())?;
    }
    Ok(line)
}

/// The command of a line, which begins with the program's name. Errors: `Usage` if it has none, or
/// out of memory.
fn command_of_line(alloc: Global, line: &[&str]) -> Result<Command, WordsFault>
    ensures { Answers (command_of_line (map (λ s. s.now) line.now)) result }
{
    match program(alloc)?.try_get_matches_from(line) {
        Ok(found) => command_met(alloc, &found),
        Err(error) => Err(fault_by(error.kind())),
    }
}

/// Why there is no command if `clap` ends with an error of this kind.
fn fault_by(kind: ErrorKind) -> WordsFault
    ensures { result ≡ fault_by kind }
{
    match kind {
        ErrorKind::OutOfMemory => WordsFault::NoMemory,
        _ => WordsFault::Usage,
    }
}

/// The command of the subcommand that the parse met. Errors: `Usage` if it met none or it is none,
/// or out of memory.
fn command_met(alloc: Global, found: &ArgMatches<'_>) -> Result<Command, WordsFault>
    ensures { Answers (command_met (subcommand_rows_of found.now)) result }
{
    match found.subcommand() {
        Some((name, given)) => command_in(alloc, name, given),
        None => Err(WordsFault::Usage),
    }
}

/// The command of a subcommand's name and of what it was given. Errors: `Usage` if there is none,
/// or out of memory.
fn command_in(alloc: Global, name: &str, given: &ArgMatches<'_>) -> Result<Command, WordsFault>
    ensures { Answers (command_in name.now (rows_of (found_of given.now))) result }
{
    match row_named(name) {
        Some(row) => command_from(alloc, &row, given),
        None => Err(WordsFault::Usage),
    }
}

/// The command of a row and of what its subcommand was given. Errors: `Usage` if there is none, or
/// out of memory.
fn command_from(alloc: Global, row: &Row, given: &ArgMatches<'_>) -> Result<Command, WordsFault>
    ensures { Answers (command_from (rows_of (found_of given.now)) (row_seen row.now)) result }
{
    match names_of(alloc, row, given)? {
        Some(names) => command_of(alloc, row.task, names.as_slice(), &texts_at(row, given)),
        None => Err(WordsFault::Usage),
    }
}

/// What the words of a row were given, if each was given that may not be left out. The only error
/// is out of memory.
fn names_of<'a>(
    alloc: Global,
    row: &Row,
    given: &ArgMatches<'a>,
) -> Result<Option<Vec<&'a str>>, AllocError>
    ensures { IfOk result (λ names. option_map (λ all. map (λ s. s.now) all.items) names
        ≡ names_of (rows_of (found_of given.now)) (row_seen row.now)) }
{
    match names_in(alloc, row.words, given)? {
        Some(names) => Ok(Some(with_further(names, row.further, given)?)),
        None => Ok(None),
    }
}

/// The names, and behind them what the words of these names were given, where they were. The only
/// error is out of memory.
fn with_further<'a>(
    names: Vec<&'a str>,
    ids: &[&str],
    given: &ArgMatches<'a>,
) -> Result<Vec<&'a str>, AllocError>
    ensures { IfOk result (λ all. map (λ s. s.now) all.items ≡ map (λ s. s.now) names.entry.items
        ++ further_in (rows_of (found_of given.now)) (map (λ s. s.now) ids.now)) }
{
    let mut all = names;
    for id in ids {
        add_given(&mut all, text_in(given, id))?;
    }
    Ok(all)
}

/// Adds the name, if one was given. The only error is out of memory.
fn add_given<'a>(names: &mut Vec<&'a str>, name: Option<&'a str>) -> Result<(), AllocError>
    ensures { OnOk result (map (λ s. s.now) names.new.items ≡ map (λ s. s.now) names.old.items
        ++ given_name (option_map (λ s. s.now) name.entry)) }
{
    if let Some(name) = name {
        names.push(name)?;
    }
    Ok(())
}

/// What the words of these names were given, if each was given. The only error is out of memory.
fn names_in<'a>(
    alloc: Global,
    ids: &[&str],
    given: &ArgMatches<'a>,
) -> Result<Option<Vec<&'a str>>, AllocError>
    ensures { IfOk result (λ names. option_map (λ all. map (λ s. s.now) all.items) names
        ≡ names_in (rows_of (found_of given.now)) (map (λ s. s.now) ids.now)) }
{
    let mut names = Vec::new(alloc);
    for id in ids {
        match text_in(given, id) {
            Some(name) => names.push(name)?,
            None => return Ok(None),
        }
    }
    Ok(Some(names))
}

/// The texts of the options that the row takes and that were given.
fn texts_at<'a>(row: &Row, given: &ArgMatches<'a>) -> OptionTexts<'a>
    ensures { texts_seen result ≡ texts_at (row_seen row.now) (rows_of (found_of given.now)) }
{
    OptionTexts {
        blocks: text_at(row, "blocks", given),
        turret1: text_at(row, "turret1", given),
        turret2: text_at(row, "turret2", given),
        outside: text_at(row, "outside", given),
    }
}

/// The text of an option, if the row takes it and it was given.
fn text_at<'a>(row: &Row, id: &str, given: &ArgMatches<'a>) -> Option<&'a str>
    ensures { option_map (λ s. s.now) result ≡ text_at (row_seen row.now) id.now (rows_of (found_of given.now)) }
{
    if takes_option(row, id) {
        text_in(given, id)
    } else {
        None
    }
}

/// The text that was given for this name, if one was.
fn text_in<'a>(given: &ArgMatches<'a>, id: &str) -> Option<&'a str>
    ensures { option_map (λ s. s.now) result ≡ first_of id.now (rows_of (found_of given.now)) }
{
    given.get_str(id)
}
