//! The call for the commands that make no run. It has no thread and nothing to wait for, so it
//! returns. `top` does these commands by the same `perform_no_run`.
//! For builders; control.rt calls `perform_no_run`.
ghost use Rattle.std.specs.Prelude.{◌≡◌, false, map, option_map, Some};
ghost use Rattle.std.specs.String.{string_bytes};
ghost use Rattle.command_words.specs.Listed.{listed_command};
ghost use Rattle.lathe_looks.specs.Named.{files_of};
ghost use Rattle.lathe_looks.specs.Texts.{files_in};
ghost use Rattle.lathe_top.specs.Done.{IsDone, Performs, top_state, call_of};
ghost use Rattle.lathe_top.specs.Held.{lathe_of, lathe_left};
ghost use Rattle.lathe_top.specs.Kinds.{kind_of, makes_run};
ghost use Rattle.lathe_top.specs.Lathe.{lathe_at, lathe_after};
ghost use Rattle.lathe_top.specs.Outside.{outside_in};

use crate::branching::branch_off;
use crate::editing::edit;
use crate::held::{Ended, Lathe};
use crate::looking::{answer_pair, judge_zones, look, show_zoned, write_out, write_plain};
use crate::outcome::Outcome;
use clap_reading::read_words;
use command_words::{Command, Name, ProgramRange, WordsFault};
use disk_model::Disk;
use lathe_calls::{Question, Status};
use lathe_looks::{FileNames, Showing, tell_usage};
use nc_number::Both;
use nc_outside::{Shelf, Sink, Turret};
use open_order::Outside;
use std::alloc::Global;

/// Whether a command makes a run: `run`, `make` and `resume` do. `top` alone performs these; all
/// others are performed by `look_or_edit` too.
pub fn makes_run(command: &Command) -> bool
    ensures { result ≡ makes_run (kind_of (Some command.now)) }
{
    match command {
        Command::Run(_, _, _, _, _) => true,
        Command::Resume(_, _) => true,
        Command::Make(_, _) => true,
        Command::Verify(_, _, _) => false,
        Command::Waits(_, _, _, _) => false,
        Command::Races(_, _, _) => false,
        Command::Trace(_, _, _, _) => false,
        Command::Edit(_) => false,
        Command::Moves => false,
        Command::State => false,
        Command::Zones(_) => false,
        Command::ZonesOf(_, _, _, _) => false,
        Command::Branch(_) => false,
        Command::Expand(_) => false,
        Command::Plain(_, _) => false,
    }
}

/// Does what the words say just as `top` does, with the same answers and statuses, for words that
/// make no run: for every command but `run`, `make` and `resume`, and for words that are no command.
/// Of words that `read_words` reads, `makes_run` tells whether they make one.
///
/// It always returns: it takes no handle for threads, and none that can wait. No turret is called,
/// and `branch` alone calls the second disk. It is for programs that look at a run, edit or branch
/// it beside those that run it, or where there are no threads.
pub fn look_or_edit<H: Shelf, D: Disk, E: Disk, T: Turret, K: Sink>(
    alloc: Global,
    words: &[String],
    shelf: &mut H,
    disk: D,
    second: E,
    left: T,
    right: T,
    out: &mut K,
) -> Outcome<D, E, T>
    requires still { makes_run (kind_of (listed_command (map string_bytes words.now))) ≡ false }
    // What `top` promises of these words.
    ensures done { IsDone D.state E.state (call_of (map string_bytes words.now)
        (top_state (H.state shelf.old) (lathe_at (D.state disk) (T.state left) (T.state right)) second
        (K.state out.old))
        (top_state (H.state shelf.new) (lathe_after D.state T.state result) result.second
        (K.state out.new))) result.status }
{
    let turrets = Both {
        one: left,
        two: right,
    };
    let lathe = Lathe { disk, turrets };
    let (ended, second) = respond_no_run(alloc, words, shelf, lathe, second, out);
    let Ended {
        status,
        lathe: Lathe { disk, turrets },
        missed,
    } = ended;
    let Both {
        one: left,
        two: right,
    } = turrets;
    Outcome {
        status,
        disk,
        second,
        left,
        right,
        missed,
    }
}

/// Does what words say that make no run, and gives how it ended and the second disk.
fn respond_no_run<H: Shelf, D: Disk, E: Disk, T: Turret, K: Sink>(
    alloc: Global,
    words: &[String],
    shelf: &mut H,
    lathe: Lathe<D, T>,
    second: E,
    out: &mut K,
) -> (Ended<D, T>, E)
    requires still { makes_run (kind_of (listed_command (map string_bytes words.now))) ≡ false }
    ensures { IsDone D.state E.state (call_of (map string_bytes words.now)
        (top_state (H.state shelf.old) (lathe_of D.state T.state lathe) second (K.state out.old))
        (top_state (H.state shelf.new) (lathe_left D.state T.state result.0) result.1
        (K.state out.new))) result.0.status }
{
    match read_words(alloc, words) {
        Ok(command) => perform_no_run(alloc, &command, shelf, lathe, second, out),
        Err(WordsFault::Usage) => (Ended::at_rest(tell_usage(out), lathe), second),
        Err(WordsFault::NoMemory) => (Ended::at_rest(Status::NoMemory as u8, lathe), second),
    }
}

/// Does what a command says that makes no run. The second disk is given back untouched unless the
/// command branches.
pub(crate) fn perform_no_run<H: Shelf, D: Disk, E: Disk, T: Turret, K: Sink>(
    alloc: Global,
    command: &Command,
    shelf: &mut H,
    lathe: Lathe<D, T>,
    second: E,
    out: &mut K,
) -> (Ended<D, T>, E)
    requires still { makes_run (kind_of (Some command.now)) ≡ false }
    ensures { Performs D.state E.state command.now
        (top_state (H.state shelf.old) (lathe_of D.state T.state lathe) second (K.state out.old))
        (top_state (H.state shelf.new) (lathe_left D.state T.state result.0) result.1
        (K.state out.new)) result.0.status }
{
    match command {
        Command::Verify(left, right, settings) => {
            let names = names_of(left, right, settings);
            (
                answer_pair(alloc, &names, Question::Verify, shelf, lathe, out),
                second,
            )
        }
        Command::Waits(left, right, settings, outside) => {
            let names = names_of(left, right, settings);
            let range = outside_in(*outside);
            (
                answer_pair(alloc, &names, Question::Waits(range), shelf, lathe, out),
                second,
            )
        }
        Command::Races(left, right, settings) => {
            let names = names_of(left, right, settings);
            (
                answer_pair(alloc, &names, Question::Races, shelf, lathe, out),
                second,
            )
        }
        Command::Trace(left, right, settings, blocks) => {
            let names = names_of(left, right, settings);
            (
                answer_pair(alloc, &names, Question::Trace(*blocks), shelf, lathe, out),
                second,
            )
        }
        Command::Edit(edits) => (edit(alloc, edits.as_str(), shelf, lathe, out), second),
        Command::Moves => (look(alloc, Showing::Moves, lathe, out), second),
        Command::State => (look(alloc, Showing::State, lathe, out), second),
        Command::Zones(zones) => (show_zoned(alloc, zones.as_str(), shelf, lathe, out), second),
        Command::ZonesOf(zones, left, right, settings) => {
            let names = names_of(left, right, settings);
            (
                judge_zones(alloc, zones.as_str(), &names, shelf, lathe, out),
                second,
            )
        }
        Command::Branch(meetings) => branch_off(alloc, *meetings, lathe, second, out),
        Command::Expand(tape) => (write_out(alloc, tape.as_str(), shelf, lathe, out), second),
        Command::Plain(tape, settings) => (
            write_plain(alloc, tape.as_str(), name_in(settings), shelf, lathe, out),
            second,
        ),
        Command::Run(_, _, _, _, _) => unreachable!(),
        Command::Resume(_, _) => unreachable!(),
        Command::Make(_, _) => unreachable!(),
    }
}

/// The programs that `--outside` names, as the verdict on waits takes them.
fn outside_in(range: Option<ProgramRange>) -> Option<Outside>
    ensures { result ≡ outside_in range }
{
    match range {
        Some(range) => Some(Outside {
            least: range.least,
            greatest: range.greatest,
        }),
        None => None,
    }
}

/// The names of the files of a pair, as lathe_looks takes them.
pub(crate) fn names_of<'a>(
    left: &'a Name,
    right: &'a Name,
    settings: &'a Option<Name>,
) -> FileNames<'a>
    ensures { files_in result ≡ files_of left.now right.now settings.now }
{
    FileNames {
        tapes: Both {
            one: left.as_str(),
            two: right.as_str(),
        },
        settings: name_in(settings),
    }
}

/// The text of a name, if there is one.
fn name_in(name: &Option<Name>) -> Option<&str>
    ensures { option_map (λ s. s.now) result ≡ name.now }
{
    match name {
        Some(name) => Some(name.as_str()),
        None => None,
    }
}
