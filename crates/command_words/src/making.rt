//! The command that a row's task makes of the words and options that were given. Specs/Listed.antt
//! defines it, mostly by functions of the same names. A further command is an arm of
//! `plain_command`, `word_command`, `pair_command` or `long_command` in both.
ghost use Rattle.std.specs.Prelude.{◌≡◌, ◌≤◌, IfSome, map, option_map};
ghost use Rattle.nc_number.specs.declared.limits.TheConstants.{MOST_RECORDS};
ghost use Rattle.command_words.specs.declared.making.TheConstants.{LAST_MADE, LAST_PROGRAM};
ghost use Rattle.command_words.specs.Listed.{command_of, command_with, file_of, files_of, limit_of, long_command, outside_of, pair_command, plain_command, range_by, range_of, tape_command, word_command, zones_command};
ghost use Rattle.command_words.specs.Making.{Answers, texts_seen};
ghost use Rattle.command_words.specs.Number.{number_of};

use crate::command::{Command, Name, ProgramRange, TurretFiles};
use crate::fault::WordsFault;
use crate::number::read_number;
use crate::option_texts::OptionTexts;
use crate::table::Task;
use nc_number::MOST_RECORDS;
use std::alloc::Global;

/// How many blocks a call may run if the words do not say.
pub const DEFAULT_BLOCKS: u32 = 100_000;

/// The most blocks that the words may let a call run.
pub const MOST_TO_RUN: u32 = 1_000_000;

/// The last O number.
pub const LAST_PROGRAM: u32 = 9_999;

/// The greatest number of a made pair.
pub const LAST_MADE: u32 = 999_999;

/// What the options `--blocks` and `--outside` say.
#[derive(Clone, Copy)]
pub(crate) struct Limits {
    /// The most blocks that a call may run.
    pub(crate) blocks: u32,
    /// The programs that the tapes may lack.
    pub(crate) outside: Option<ProgramRange>,
}

/// The names of a pair, as its command has them.
#[derive(Drop)]
pub(crate) struct PairNames {
    /// The tape of path 1.
    pub(crate) left: Name,
    /// The tape of path 2.
    pub(crate) right: Name,
    /// The settings, if they are named.
    pub(crate) settings: Option<Name>,
}

/// The command that a task makes of its words and of the texts of the options.
/// Errors: `Usage` exactly if they give no command; `NoMemory` only if memory runs out.
pub fn command_of(
    alloc: Global,
    task: Task,
    words: &[&str],
    texts: &OptionTexts<'_>,
) -> Result<Command, WordsFault>
    ensures { Answers (command_of task (map (λ s. s.now) words.now) (texts_seen texts.now)) result }
{
    match limit_of(texts.blocks) {
        Some(blocks) => match outside_of(texts.outside) {
            Some(outside) => match files_of(alloc, texts) {
                Ok(files) => command_with(alloc, task, words, Limits { blocks, outside }, files),
                Err(fault) => Err(fault),
            },
            None => Err(WordsFault::Usage),
        },
        None => Err(WordsFault::Usage),
    }
}

/// The programs outside that a text names, and none if there is no text.
fn outside_of(text: Option<&str>) -> Option<Option<ProgramRange>>
    ensures { result ≡ outside_of (option_map (λ s. s.now) text.entry) }
{
    match text {
        None => Some(None),
        Some(text) => match range_of(text) {
            Some(range) => Some(Some(range)),
            None => None,
        },
    }
}

/// The range that a text writes: two numbers from 1 to 9,999 with `-` between them, the second not
/// below the first.
fn range_of(text: &str) -> Option<ProgramRange>
    ensures { result ≡ range_of text.now }
{
    match text.split_once('-') {
        Some((least, greatest)) => range_by(
            read_number(greatest, 1, LAST_PROGRAM),
            read_number(least, 1, LAST_PROGRAM),
        ),
        None => None,
    }
}

/// The range between two O numbers, if both are there and the least is not above the greatest.
fn range_by(greatest: Option<u32>, least: Option<u32>) -> Option<ProgramRange>
    requires greatest { IfSome greatest (λ n. n ≤ LAST_PROGRAM) }
    ensures { result ≡ range_by greatest least }
{
    match greatest {
        Some(greatest) => match least {
            Some(least) => {
                if least <= greatest {
                    Some(ProgramRange {
                        least: least as u16,
                        greatest: greatest as u16,
                    })
                } else {
                    None
                }
            }
            None => None,
        },
        None => None,
    }
}

/// The most blocks that a text asks for, and the usual number if there is none.
fn limit_of(limit: Option<&str>) -> Option<u32>
    ensures { result ≡ limit_of (option_map (λ s. s.now) limit.entry) }
{
    match limit {
        None => Some(DEFAULT_BLOCKS),
        Some(text) => read_number(text, 1, MOST_TO_RUN),
    }
}

/// The files that the options name for the turrets. Errors: `Usage` for an empty name, or memory.
fn files_of(alloc: Global, texts: &OptionTexts<'_>) -> Result<TurretFiles, WordsFault>
    ensures { Answers (files_of (texts_seen texts.now)) result }
{
    match file_of(alloc, texts.turret1) {
        Ok(one) => match file_of(alloc, texts.turret2) {
            Ok(two) => Ok(TurretFiles { one, two }),
            Err(fault) => Err(fault),
        },
        Err(fault) => Err(fault),
    }
}

/// The file that an option names, if it was given. Errors: `Usage` for an empty name, or memory.
fn file_of(alloc: Global, text: Option<&str>) -> Result<Option<Name>, WordsFault>
    ensures { Answers (file_of (option_map (λ s. s.now) text.entry)) result }
{
    match text {
        None => Ok(None),
        Some(text) if text.is_empty() => Err(WordsFault::Usage),
        Some(text) => Ok(Some(Name::new(alloc, text)?)),
    }
}

/// The command that a task makes of its words, by how many there are. Errors: `Usage` if their
/// number or a number among them is wrong, or memory.
fn command_with(
    alloc: Global,
    task: Task,
    words: &[&str],
    limits: Limits,
    files: TurretFiles,
) -> Result<Command, WordsFault>
    ensures { Answers (command_with task (map (λ s. s.now) words.now) limits files) result }
{
    match words.len() {
        0 => plain_command(task, limits, files),
        1 => word_command(alloc, task, words[0], files),
        2 => {
            let pair = PairNames {
                left: Name::new(alloc, words[0])?,
                right: Name::new(alloc, words[1])?,
                settings: None,
            };
            pair_command(task, pair, limits, files)
        }
        3 => {
            let pair = PairNames {
                left: Name::new(alloc, words[0])?,
                right: Name::new(alloc, words[1])?,
                settings: Some(Name::new(alloc, words[2])?),
            };
            pair_command(task, pair, limits, files)
        }
        4 => {
            let pair = PairNames {
                left: Name::new(alloc, words[1])?,
                right: Name::new(alloc, words[2])?,
                settings: Some(Name::new(alloc, words[3])?),
            };
            long_command(alloc, task, words[0], pair)
        }
        _ => Err(WordsFault::Usage),
    }
}

/// The command of a task that has no word. `Usage` if it has one.
fn plain_command(task: Task, limits: Limits, files: TurretFiles) -> Result<Command, WordsFault>
    ensures { Answers (plain_command task limits files) result }
{
    match task {
        Task::Resume => Ok(Command::Resume(limits.blocks, files)),
        Task::Moves => Ok(Command::Moves),
        Task::State => Ok(Command::State),
        _ => Err(WordsFault::Usage),
    }
}

/// The command of a task that has one word. Errors: `Usage` if it has none or more, or if the word
/// is no number where one is asked for; or memory.
fn word_command(
    alloc: Global,
    task: Task,
    word: &str,
    files: TurretFiles,
) -> Result<Command, WordsFault>
    ensures { Answers (word_command task word.now files) result }
{
    match task {
        Task::Edit => Ok(Command::Edit(Name::new(alloc, word)?)),
        Task::Zones => Ok(Command::Zones(Name::new(alloc, word)?)),
        Task::Expand => Ok(Command::Expand(Name::new(alloc, word)?)),
        Task::Plain => Ok(Command::Plain(Name::new(alloc, word)?, None)),
        Task::Branch => branched(word),
        Task::Make => made(word, files),
        _ => Err(WordsFault::Usage),
    }
}

/// The command of a task that has the names of a pair. `Usage` if it has other words.
fn pair_command(
    task: Task,
    pair: PairNames,
    limits: Limits,
    files: TurretFiles,
) -> Result<Command, WordsFault>
    ensures { Answers (pair_command task pair limits files) result }
{
    let PairNames {
        left,
        right,
        settings,
    } = pair;
    match task {
        Task::Verify => Ok(Command::Verify(left, right, settings)),
        Task::Trace => Ok(Command::Trace(left, right, settings, limits.blocks)),
        Task::Waits => Ok(Command::Waits(left, right, settings, limits.outside)),
        Task::Races => Ok(Command::Races(left, right, settings)),
        Task::Run => Ok(Command::Run(left, right, settings, limits.blocks, files)),
        Task::Plain => tape_command(left, right, settings),
        Task::Zones => zones_command(left, right, settings),
        _ => Err(WordsFault::Usage),
    }
}

/// The command `plain` with a tape and its settings. `Usage` if there is a third word.
fn tape_command(tape: Name, settings: Name, third: Option<Name>) -> Result<Command, WordsFault>
    ensures { Answers (tape_command tape settings third) result }
{
    match third {
        None => Ok(Command::Plain(tape, Some(settings))),
        Some(_) => Err(WordsFault::Usage),
    }
}

/// The command `zones` with a pair of tapes and no settings. `Usage` if there is one tape alone.
fn zones_command(zones: Name, left: Name, right: Option<Name>) -> Result<Command, WordsFault>
    ensures { Answers (zones_command zones left right) result }
{
    match right {
        Some(right) => Ok(Command::ZonesOf(zones, left, right, None)),
        None => Err(WordsFault::Usage),
    }
}

/// The command of a task that has a word before the names of a pair and its settings. Errors:
/// `Usage` if it has fewer words; or memory.
fn long_command(
    alloc: Global,
    task: Task,
    word: &str,
    pair: PairNames,
) -> Result<Command, WordsFault>
    ensures { Answers (long_command task word.now pair) result }
{
    let PairNames {
        left,
        right,
        settings,
    } = pair;
    match task {
        Task::Zones => {
            let zones = Name::new(alloc, word)?;
            Ok(Command::ZonesOf(zones, left, right, settings))
        }
        _ => Err(WordsFault::Usage),
    }
}

/// The command that branches at the meeting of this number, at most 4,000,000: a journal has no
/// more records. Else `Usage`.
fn branched(meetings: &str) -> Result<Command, WordsFault>
    ensures { Answers (option_map Command.Branch (number_of 0 MOST_RECORDS meetings.now)) result }
{
    match read_number(meetings, 0, MOST_RECORDS) {
        Some(meetings) => Ok(Command::Branch(meetings)),
        None => Err(WordsFault::Usage),
    }
}

/// The command that makes the pair of this number, 0 to [`LAST_MADE`]. Else `Usage`.
fn made(number: &str, files: TurretFiles) -> Result<Command, WordsFault>
    ensures { Answers (option_map (λ n. Command.Make n files) (number_of 0 LAST_MADE number.now)) result }
{
    match read_number(number, 0, LAST_MADE) {
        Some(number) => Ok(Command::Make(number, files)),
        None => Err(WordsFault::Usage),
    }
}
