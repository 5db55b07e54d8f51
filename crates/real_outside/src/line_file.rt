//! A file or a named pipe that gets the lines of a turret.
ghost use Rattle.std.specs.Prelude.{◌≡◌, None};

use crate::folder::Folder;
use crate::system_folder::SystemFolder;
use nc_outside::{PutFault, Sink};
use std::fs::File;
use std::io::Write;
use std::os::unix::fs::FileTypeExt;
use std::rt::Files;
use std::{fs, io};

/// A file or a named pipe for the lines of a turret. It tells nothing of what was written.
///
/// It is opened at the first line. A file is made anew then; a named pipe is waited for until
/// somebody reads it. Each line is handed to the system at once. If no
/// name was given, each line is taken and kept nowhere.
///
/// Somebody who reads two pipes may open the other one first: while this one is waited for, the
/// other one has somebody who writes it.
#[derive(Drop)]
pub struct LineFile<'a, R: Files<File = File>> {
    /// The system.
    rt: &'a R,
    /// The name of the file; without one nothing is written.
    name: Option<&'a str>,
    /// The name of the file that is opened behind this one, if there is one.
    other: Option<&'a str>,
    /// The file, once the first line has opened it.
    file: Option<Opened>,
    /// How many calls have failed.
    faults: u64,
}

impl<'a, R: Files<File = File>> LineFile<'a, R> {
    /// The file of this name, which is not opened yet, or none.
    pub fn new(rt: &'a R, name: Option<&'a str>) -> Self
        ensures { result.faults ≡ 0 }
    {
        LineFile::before(rt, name, None)
    }

    /// The file of this name, or none, where the one of the other name is opened behind it. Neither
    /// is opened yet.
    pub fn before(rt: &'a R, name: Option<&'a str>, other: Option<&'a str>) -> Self
        ensures { result.faults ≡ 0 }
    {
        LineFile {
            rt,
            name,
            other,
            file: None,
            faults: 0,
        }
    }
}

/// A file for the lines of a turret, open.
#[derive(Drop)]
struct Opened {
    /// The file or the pipe.
    file: File,
    /// The other pipe, which is kept so that whoever reads it does not find its end.
    _other: Option<File>,
}

/// Writes a line to the file, which is opened if it is not yet.
fn write<R: Files<File = File>>(
    rt: &R,
    name: Option<&str>,
    other: Option<&str>,
    file: &mut Option<Opened>,
    piece: &[u8],
) -> io::Result<()> {
    let Some(name) = name else {
        return Ok(());
    };
    if file.is_none() {
        *file = Some(open_file(rt, name, other)?);
    }
    match file {
        Some(open) => open.file.write_all(piece),
        None => Ok(()),
    }
}

/// The file of this name, by a descriptor that is none of the three of the standard streams: if
/// one of those is closed, the system gives its number to the next file that is opened.
fn open_file<R: Files<File = File>>(rt: &R, name: &str, other: Option<&str>) -> io::Result<Opened> {
    if is_pipe(rt, name) {
        return open_pipe(rt, name, other);
    }
    let file = File::create(rt, name)?.try_clone()?;
    Ok(Opened { file, _other: None })
}

/// The pipe of this name, once somebody reads it. Until then the other one is open to be read and
/// written, which waits for nobody: so whoever reads both can open it. Then it is kept open to be
/// written alone.
fn open_pipe<R: Files<File = File>>(rt: &R, name: &str, other: Option<&str>) -> io::Result<Opened> {
    let Some(other) = other_pipe(rt, name, other) else {
        let file = awaited(rt, name)?;
        return Ok(Opened { file, _other: None });
    };
    let both = File::options().read(true).write(true).open(rt, other)?;
    let both = both.try_clone()?;
    let file = awaited(rt, name)?;
    let kept = awaited(rt, other)?;
    drop(both);
    Ok(Opened {
        file,
        _other: Some(kept),
    })
}

/// The name of the other file, if that is a pipe, and another one.
fn other_pipe<'a, R: Files<File = File>>(
    rt: &R,
    name: &str,
    other: Option<&'a str>,
) -> Option<&'a str> {
    let folder = SystemFolder::new(rt);
    let other = other?;
    if !is_pipe(rt, other) {
        return None;
    }
    match (folder.identity(name), folder.identity(other)) {
        (Ok(own), Ok(found)) if own != found => Some(other),
        _ => None,
    }
}

/// The pipe of this name, open to be written, once somebody reads it.
fn awaited<R: Files<File = File>>(rt: &R, name: &str) -> io::Result<File> {
    File::options().write(true).open(rt, name)?.try_clone()
}

/// Whether the name is that of a pipe.
fn is_pipe<R: Files<File = File>>(rt: &R, name: &str) -> bool {
    match fs::metadata(rt, name) {
        Ok(found) => found.file_type().is_fifo(),
        Err(_) => false,
    }
}

impl<R: Files<File = File>> Sink for LineFile<'_, R> {
    ghost state = { λ sink. record { written = None; faults = sink.faults } };

    /// How many calls have failed.
    fn faults(&self) -> u64 {
        self.faults
    }

    /// Writes the bytes of a line at once.
    fn put(&mut self, piece: &[u8]) -> Result<(), PutFault> {
        if write(self.rt, self.name, self.other, &mut self.file, piece).is_err() {
            self.faults = self.faults.saturating_add(1);
            return Err(PutFault::Failed);
        }
        Ok(())
    }
}
