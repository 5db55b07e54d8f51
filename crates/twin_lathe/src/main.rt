//! Runs a command of the lathe: its words stand on the command line, tapes are files, the journal
//! of a run is a file of the current folder, the turrets write what they get to the files that were
//! named for them, and the report goes to standard output. The exit status is that of the command.
#![tactic(auto)]

mod ending;
mod turret_files;

use clap_reading::read_words;
use command_words::{Command, Journal, WordsFault, journal_of};
use disk_model::Disk;
use ending::Ending;
use lathe_top::{Outcome, top};
use nc_number::Path;
use nc_outside::Turret;
use real_outside::{Access, FileDisk, FileShelf, Folder, LineFile, StdSink, SystemFolder};
use std::alloc::AllocError;
use std::env;
use std::fs::File;
use std::io::{ErrorKind, IsTerminal};
use std::rt::{Env, Files};
use turret_files::{Clash, TurretNames, clash_of, names_for_turrets, pipe_of};
use turret_lines::LineTurret;

/// The file of the journal, in the current folder.
const JOURNAL: &str = "twin.journal";

/// The file of the journal that a branch makes, in the current folder.
const BRANCH: &str = "branch.journal";

/// Does what the words of its call ask, over the files of the current folder.
fn main(rt: HostRuntime) -> Ending {
    let Ok(words) = words_given(&rt) else {
        return Ending::without_memory();
    };
    let command = match read_words(rt.alloc(), words.as_slice()) {
        Ok(command) => Some(command),
        Err(WordsFault::Usage) => None,
        Err(WordsFault::NoMemory) => return Ending::without_memory(),
    };
    let clash = clash_of(&rt, &command);
    let words = words_without(clash, words.as_slice());
    let names = names_for_turrets(&command);
    if rt.stderr().is_terminal() {
        tell_pipes(&rt, names);
    }
    let mut shelf = FileShelf::new(&rt);
    let mut out = StdSink::new(&rt);
    let access = access_of(&command);
    let outcome = top(
        &rt,
        rt.alloc(),
        words,
        &mut shelf,
        FileDisk::new(SystemFolder::new(&rt), JOURNAL, access),
        FileDisk::new(SystemFolder::new(&rt), BRANCH, Access::Write),
        LineTurret::new(LineFile::before(&rt, names.one, names.two)),
        LineTurret::new(LineFile::new(&rt, names.two)),
        &mut out,
    );
    let end = Ending::behind(&outcome);
    tell_clash(&rt, clash);
    tell_missed(&rt, names, &outcome);
    complain(&rt, JOURNAL, &outcome.disk);
    complain(&rt, BRANCH, &outcome.second);
    end
}

/// Whether the command writes the journal, goes on with it, or only looks at it.
fn access_of(command: &Option<Command>) -> Access {
    if let Some(Command::Resume(_, _)) = command {
        return Access::Continue;
    }
    match journal_of(command) {
        Journal::Write => Access::Write,
        Journal::None | Journal::Look => Access::Look,
    }
}

/// The words of the command, or none, which are no command, if its turrets may not write to their
/// files.
fn words_without(clash: Option<Clash>, words: &[String]) -> &[String] {
    if clash.is_some() {
        return &[];
    }
    words
}

/// Says on standard error why the turrets may not write to their files, if they may not.
fn tell_clash<R: Eprint>(rt: &R, clash: Option<Clash>) {
    let _ = match clash {
        None => Ok(()),
        Some(Clash::One) => eprintln!(rt; "--turret1 would make a file anew that the command uses"),
        Some(Clash::Two) => eprintln!(rt; "--turret2 would make a file anew that the command uses"),
        Some(Clash::Both) => eprintln!(rt; "--turret1 and --turret2 are one file"),
    };
}

/// Says on standard error which pipes the run waits for, until something reads them.
fn tell_pipes<R: Eprint + Files<File = File>>(rt: &R, names: TurretNames<'_>) {
    for path in [Path::One, Path::Two] {
        if let Some(pipe) = pipe_of(rt, names, path) {
            let number = path.number();
            let _ = eprintln!(rt;
                "turret {number} is the pipe {pipe}: the run begins once it is read"
            );
        }
    }
}

/// Says on standard error how many recorded moves each turret missed, if it missed any. What was
/// written into a pipe and not read counts as made.
fn tell_missed<R: Eprint + Files<File = File>, D: Disk, E: Disk, T: Turret>(
    rt: &R,
    names: TurretNames<'_>,
    outcome: &Outcome<D, E, T>,
) {
    for path in [Path::One, Path::Two] {
        let number = path.number();
        let beside = match pipe_of(rt, names, path) {
            Some(_) => ", besides those that the reader of its pipe has not read",
            None => "",
        };
        let _ = match outcome.missed(path) {
            0 => Ok(()),
            1 => eprintln!(rt; "path {number}: 1 recorded move was not made{beside}"),
            many => eprintln!(rt; "path {number}: {many} recorded moves were not made{beside}"),
        };
    }
}

/// Says on standard error why the file of a journal can't be used, if a call of it failed. If that
/// can't be said, the status still tells of it.
fn complain<R: Eprint, D: Folder + Drop>(rt: &R, journal: &str, disk: &FileDisk<'_, D>) {
    let _ = match (disk.trouble(), disk.cause()) {
        (Some(trouble), _) => eprintln!(rt; "{journal} {trouble}"),
        (None, Some(error)) => eprintln!(rt; "{journal}: {error}"),
        (None, None) => Ok(()),
    };
}

/// The words after the program's name. If one of them is no text they are no command, and none is
/// given.
fn words_given<R: Env + AllocGlobal>(rt: &R) -> Result<Vec<String>, AllocError> {
    match env::args(rt) {
        Ok(all) => all.skip(1).collect(rt.alloc()),
        Err(error) if error.kind() == ErrorKind::OutOfMemory => Err(AllocError),
        Err(_) => Ok(Vec::new(rt.alloc())),
    }
}
