//! The files to which the turrets of a command write, and whether they may: each of them is made
//! anew, so none may be a file that the command uses, and both may not be one.
//! For main.rt of this crate.
use crate::{BRANCH, JOURNAL};
use command_words::{Command, Name};
use nc_number::Path;
use real_outside::{Folder, SystemFolder};
use std::fs;
use std::fs::File;
use std::os::unix::fs::FileTypeExt;
use std::rt::Files;

/// The files that a command uses whatever its words are: both journals, and the files that may take
/// their places.
const OWN: [&str; 4] = [JOURNAL, "twin.journal.new", BRANCH, "branch.journal.new"];

/// The names of the files to which the turrets of a run write, if they were given.
#[derive(Clone, Copy)]
pub(crate) struct TurretNames<'a> {
    /// The file of path 1's turret.
    pub(crate) one: Option<&'a str>,
    /// The file of path 2's turret.
    pub(crate) two: Option<&'a str>,
}

/// Why the turrets of a command may not write to their files.
#[derive(Clone, Copy)]
pub(crate) enum Clash {
    /// The command uses the file of path 1's turret itself.
    One,
    /// The command uses the file of path 2's turret itself.
    Two,
    /// Both turrets have one file, which is no pipe and no device.
    Both,
}

/// The names of the files to which the turrets of a command write.
pub(crate) fn names_for_turrets(command: &Option<Command>) -> TurretNames<'_> {
    let files = match command {
        Some(command) => command.turret_files(),
        None => None,
    };
    match files {
        Some(files) => TurretNames {
            one: text_of(&files.one),
            two: text_of(&files.two),
        },
        None => TurretNames {
            one: None,
            two: None,
        },
    }
}

/// The text of a name, if there is one.
fn text_of(name: &Option<Name>) -> Option<&str> {
    match name {
        Some(name) => Some(name.as_str()),
        None => None,
    }
}

/// The name of the file of a path's turret, if that is a pipe.
pub(crate) fn pipe_of<'a, R: Files<File = File>>(
    rt: &R,
    names: TurretNames<'a>,
    path: Path,
) -> Option<&'a str> {
    let name = match path {
        Path::One => names.one,
        Path::Two => names.two,
    };
    let name = name?;
    match fs::metadata(rt, name) {
        Ok(found) if found.file_type().is_fifo() => Some(name),
        _ => None,
    }
}

/// Why the turrets of the command may not write to their files, if they may not. It opens none.
pub(crate) fn clash_of<R: Files<File = File>>(rt: &R, command: &Option<Command>) -> Option<Clash> {
    let Some(given) = command else {
        return None;
    };
    let names = names_for_turrets(command);
    let folder = SystemFolder::new(rt);
    if let Some(one) = names.one {
        if is_used(&folder, given, one) {
            return Some(Clash::One);
        }
    }
    if let Some(two) = names.two {
        if is_used(&folder, given, two) {
            return Some(Clash::Two);
        }
    }
    if let (Some(one), Some(two)) = (names.one, names.two) {
        if is_same(&folder, one, two) && is_regular(rt, one) {
            return Some(Clash::Both);
        }
    }
    None
}

/// Whether the command uses the file of this name itself.
fn is_used<D: Folder>(folder: &D, command: &Command, name: &str) -> bool {
    for own in OWN {
        if is_same(folder, name, own) {
            return true;
        }
    }
    if let Command::Run(left, right, settings, _, _) = command {
        return is_same(folder, name, left.as_str())
            || is_same(folder, name, right.as_str())
            || is_settings(folder, name, settings);
    }
    false
}

/// Whether the name is that of the settings, if there are any.
fn is_settings<D: Folder>(folder: &D, name: &str, settings: &Option<Name>) -> bool {
    match settings {
        Some(own) => is_same(folder, name, own.as_str()),
        None => false,
    }
}

/// Whether both names are of one file; of one that is not there, by its folder and its last name. A
/// link that leads nowhere is taken for any file: what it would make is seen only once it is made.
fn is_same<D: Folder>(folder: &D, one: &str, two: &str) -> bool {
    match (folder.identity(one), folder.identity(two)) {
        (Ok(first), Ok(second)) => first == second,
        (Err(_), Err(_)) => is_link(folder, one) || is_one_place(folder, one, two),
        _ => is_link(folder, one),
    }
}

/// Whether the name is a link that leads nowhere, of a name that leads nowhere.
fn is_link<D: Folder>(folder: &D, name: &str) -> bool {
    folder.identity(name).is_err() && folder.is_link(name).unwrap_or(false)
}

/// Whether two names are one in one folder.
fn is_one_place<D: Folder>(folder: &D, one: &str, two: &str) -> bool {
    let (first, first_name) = place_of(one);
    let (second, second_name) = place_of(two);
    match (folder.identity(first), folder.identity(second)) {
        (Ok(first), Ok(second)) => first == second && first_name == second_name,
        _ => false,
    }
}

/// The folder of a name, and its last part.
fn place_of(name: &str) -> (&str, &str) {
    match name.rsplit_once('/') {
        Some(("", last)) => ("/", last),
        Some((folder, last)) => (folder, last),
        None => (".", name),
    }
}

/// Whether the file of this name is, or will be, a regular one.
fn is_regular<R: Files<File = File>>(rt: &R, name: &str) -> bool {
    match fs::metadata(rt, name) {
        Ok(found) => found.is_file(),
        Err(_) => true,
    }
}
