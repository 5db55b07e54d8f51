//! The file of the journal, as a command may use it: who may write, what is believed after a fault,
//! and when a new file takes the place of the one that was found. How it looks to a run is in
//! file_disk.rt. file_disk.rt uses `JournalFile`.
ghost use Rattle.std.specs.Prelude.{◌+◌, ◌≤◌, ◌<◌, ◌^◌, IfOk, OnOk, length};

use crate::chain::END;
use crate::folder::{Folder, RawFile};
use crate::pieces::read_up_to;
use crate::renewal::{length_of, renewed};
use crate::shown_file::{Extent, length_shown, read_shown, sync_shown, written};
use crate::standing::may_go_on;
use std::io;
use std::io::ErrorKind;
use thiserror::Error;

/// How often a file is opened whose name another command gives to a new one meanwhile.
const TRIES: u8 = 8;

/// What a command does with a journal.
#[derive(Clone, Copy, Debug, PartialEq, Eq)]
pub enum Access {
    /// It reads what is there, keeps nobody from writing, and writes nothing.
    Look,
    /// It reads and writes, and no other command may write meanwhile. A journal that it may not
    /// write it does not read either. What it found is on the medium for certain once its first
    /// write was done.
    Write,
    /// As `Write`, by a command that goes on with the run that it finds. If that is not over, all
    /// that it found is on the medium for certain once its first sync was done.
    Continue,
}

/// Why a journal can't be used though its disk is sound. The text goes after the journal's name.
#[derive(Clone, Copy, Debug, PartialEq, Eq, Drop, Error)]
pub enum Trouble {
    /// Another command has it.
    #[error("is being written by another command")]
    Held,
    /// There is no right to write it, or to make it in its folder, or its disk can't be written.
    #[error("may not be written")]
    Unwritable,
    /// Its name is no longer that of the file that was opened.
    #[error("was moved, removed or replaced while it was being written")]
    Replaced,
    /// There was none at first, and another command has begun one since.
    #[error("was made by another command meanwhile")]
    Made,
    /// Its name leads to a file elsewhere, whose place no new file can take.
    #[error("is a symbolic link, and is written only if it is the file itself")]
    Linked,
    /// No new file can be made that would take its place.
    #[error("can't be written anew: its folder may not be written")]
    Fixed,
}

/// What is known of the file.
#[derive(Drop)]
enum Found<F: RawFile> {
    /// It was not looked for yet.
    Unknown,
    /// There is none.
    Absent,
    /// It is open, and no other command may write it meanwhile.
    Open(F),
    /// It is open to be read alone.
    Shown(F),
    /// It may not be used, or a write or a sync failed. The Ok of a later sync would tell nothing
    /// of what was written before.
    Lost,
}

/// A file of a folder.
///
/// It is looked for at the first call, and made at the first write; until then it reads as a file
/// of no bytes, so that a command which only looks leaves none behind. One command at a time may
/// write it, and to another that would each call fails. After a write or a sync that failed each
/// call fails. A file that was found is never written: before the first write a new one with all
/// that counts takes its place.
#[derive(Drop)]
pub(crate) struct JournalFile<'a, D: Folder + Drop> {
    /// The folder that the file is in.
    folder: D,
    /// Its name there.
    name: &'a str,
    /// What the command does with it.
    access: Access,
    /// What is known of it by now.
    found: Found<D::File>,
    /// Why it can't be used, if that is no fault of the disk.
    trouble: Option<Trouble>,
    /// How much is shown of a file that is read alone.
    shown: Option<Extent>,
    /// Whether the open file is a new one, made by this command.
    is_new: bool,
    /// Whether the folder was synced since the file was looked for or made.
    is_listed: bool,
}

impl<'a, D: Folder + Drop> JournalFile<'a, D> {
    /// The file of this name, which is not looked for yet.
    pub(crate) fn new(folder: D, name: &'a str, access: Access) -> Self {
        JournalFile {
            folder,
            name,
            access,
            found: Found::Unknown,
            trouble: None,
            shown: None,
            is_new: false,
            is_listed: false,
        }
    }

    /// Why the file can't be used, if that is no fault of the disk.
    pub(crate) fn trouble(&self) -> Option<Trouble> {
        self.trouble
    }

    /// The number of bytes.
    pub(crate) fn length(&mut self) -> io::Result<u64>
        ensures { IfOk result (λ n. n < 2 ^ 62) }
    {
        self.look()?;
        match &self.found {
            Found::Open(file) => length_of(file),
            Found::Shown(file) => length_shown(file, &mut self.shown),
            Found::Absent => Ok(0),
            Found::Unknown | Found::Lost => Err(refused()),
        }
    }

    /// Reads from an offset on, as many bytes as there are, up to the slice's length, and answers
    /// how many.
    pub(crate) fn read_at(&mut self, at: u64, into: &mut [u8]) -> io::Result<usize>
        ensures { IfOk result (λ n. n ≤ length into.old) }
    {
        self.look()?;
        match &self.found {
            Found::Open(file) => read_up_to(file, at, into),
            Found::Shown(file) => read_shown(file, &mut self.shown, at, into),
            Found::Absent => Ok(0),
            Found::Unknown | Found::Lost => Err(refused()),
        }
    }

    /// Writes all bytes at an offset.
    pub(crate) fn write_at(&mut self, at: u64, bytes: &[u8]) -> io::Result<()>
        ensures { OnOk result (at + length bytes.now < 2 ^ 62) }
    {
        let outcome = self.write(at, bytes);
        self.lose_after(outcome.is_err());
        outcome
    }

    /// Puts on the medium what was written and what was found, and that the folder has the file.
    pub(crate) fn sync(&mut self) -> io::Result<()> {
        let outcome = self.settle();
        self.lose_after(outcome.is_err());
        outcome
    }

    /// Believes nothing more after a write or a sync that failed.
    fn lose_after(&mut self, failed: bool) {
        if failed {
            self.found = Found::Lost;
        }
    }

    /// Looks for the file, if that was not done yet.
    fn look(&mut self) -> io::Result<()> {
        if let Found::Unknown = &self.found {
            self.found = match self.access {
                Access::Look => self.find_shown()?,
                Access::Write | Access::Continue => self.find()?,
            };
        }
        Ok(())
    }

    /// Opens the file to be read alone, if there is one.
    fn find_shown(&self) -> io::Result<Found<D::File>> {
        match self.folder.open_to_read(self.name) {
            Ok(file) => Ok(Found::Shown(file)),
            Err(error) if error.kind() == ErrorKind::NotFound => Ok(Found::Absent),
            Err(error) => Err(error),
        }
    }

    /// Opens the file to be written, if there is one, and takes its lock. Another command may have
    /// given its name to a new file before the lock was free: then that one is opened.
    fn find(&mut self) -> io::Result<Found<D::File>> {
        for _ in 0..TRIES {
            match self.folder.open(self.name) {
                Ok(file) => {
                    if !file.hold()? {
                        return Ok(self.lost(Trouble::Held));
                    }
                    if has_name(&self.folder, self.name, &file)? {
                        return Ok(Found::Open(file));
                    }
                }
                Err(error) if error.kind() == ErrorKind::NotFound => return Ok(Found::Absent),
                Err(error) => return self.unopened(error),
            }
        }
        Ok(self.lost(Trouble::Held))
    }

    /// Notes why the file may not be used.
    fn lost(&mut self, trouble: Trouble) -> Found<D::File> {
        self.trouble = Some(trouble);
        Found::Lost
    }

    /// The answer if there is a file that can't be opened, or none that can be made: the trouble
    /// that it may not be written, or the error.
    fn unopened(&mut self, error: io::Error) -> io::Result<Found<D::File>> {
        if may_not(error.kind()) {
            return Ok(self.lost(Trouble::Unwritable));
        }
        Err(error)
    }

    /// Writes all bytes at an offset of the journal, which is made if there was none, and renewed
    /// if it was found.
    fn write(&mut self, at: u64, bytes: &[u8]) -> io::Result<()>
        ensures { OnOk result (at + length bytes.now < 2 ^ 62) }
    {
        self.look()?;
        if let Found::Absent = &self.found {
            self.found = self.make()?;
        }
        self.renew()?;
        match &self.found {
            Found::Open(file) => put(file, at, bytes),
            Found::Unknown | Found::Absent | Found::Shown(_) | Found::Lost => Err(refused()),
        }
    }

    /// Makes the file, which is on the medium once it and its folder are synced.
    fn make(&mut self) -> io::Result<Found<D::File>> {
        if self.access == Access::Look {
            return Ok(Found::Absent);
        }
        match self.folder.make(self.name) {
            Ok(file) => {
                self.is_new = true;
                self.is_listed = false;
                if !file.hold()? {
                    return Ok(self.lost(Trouble::Held));
                }
                Ok(Found::Open(file))
            }
            Err(error) if error.kind() == ErrorKind::AlreadyExists => self.meet(error),
            Err(error) => self.unopened(error),
        }
    }

    /// What has the name though nothing had it before: the file of another command, which may be
    /// used if that has let go of it without a byte; or a link that leads nowhere.
    fn meet(&mut self, error: io::Error) -> io::Result<Found<D::File>> {
        match self.find()? {
            Found::Open(file) => {
                if length_of(&file)? > 0 {
                    return Ok(self.lost(Trouble::Made));
                }
                Ok(Found::Open(file))
            }
            Found::Absent => {
                if self.folder.is_link(self.name)? {
                    return Ok(self.lost(Trouble::Linked));
                }
                Err(error)
            }
            found => Ok(found),
        }
    }

    /// Puts a new file with all that counts in the place of one that was found, if that was not
    /// done yet. Only a file that has the name, and whose lock this command has, gives way.
    fn renew(&mut self) -> io::Result<()> {
        if self.is_new {
            return Ok(());
        }
        self.recognize()?;
        let Found::Open(old) = &self.found else {
            return Ok(());
        };
        if self.folder.is_link(self.name)? {
            self.trouble = Some(Trouble::Linked);
            return Err(refused());
        }
        match renewed(&self.folder, self.name, old) {
            Ok(next) => {
                self.found = Found::Open(next);
                self.is_new = true;
                self.is_listed = true;
                Ok(())
            }
            Err(error) => {
                if may_not(error.kind()) {
                    self.trouble = Some(Trouble::Fixed);
                }
                Err(error)
            }
        }
    }

    /// Renews the journal of a run with which the command is to go on.
    fn renew_found(&mut self) -> io::Result<()> {
        if self.access != Access::Continue || self.is_new {
            return Ok(());
        }
        let Found::Open(file) = &self.found else {
            return Ok(());
        };
        if may_go_on(file)? {
            self.renew()?;
        }
        Ok(())
    }

    /// Brings to the medium what was written to the journal, and what was found of it as far as the
    /// system knows that it is not there.
    fn settle(&mut self) -> io::Result<()> {
        self.look()?;
        self.renew_found()?;
        match &self.found {
            Found::Open(file) => file.sync()?,
            Found::Shown(file) => sync_shown(file, &mut self.shown)?,
            Found::Absent => {}
            Found::Unknown | Found::Lost => return Err(refused()),
        }
        self.list()?;
        self.recognize()
    }

    /// Puts on the medium that the folder has the file, if that was not done yet.
    fn list(&mut self) -> io::Result<()> {
        if self.is_listed {
            return Ok(());
        }
        match self.access {
            Access::Look => written(self.folder.sync())?,
            Access::Write | Access::Continue => self.folder.sync()?,
        }
        self.is_listed = true;
        Ok(())
    }

    /// Fails if the file that is written has its name no longer: what is on the medium would be
    /// found by nobody.
    fn recognize(&mut self) -> io::Result<()> {
        let Found::Open(file) = &self.found else {
            return Ok(());
        };
        if has_name(&self.folder, self.name, file)? {
            return Ok(());
        }
        self.trouble = Some(Trouble::Replaced);
        Err(refused())
    }
}

/// Whether this name of the folder is that of the open file.
fn has_name<D: Folder>(folder: &D, name: &str, file: &D::File) -> io::Result<bool> {
    let own = file.identity()?;
    match folder.identity(name) {
        Ok(named) => Ok(named == own),
        Err(error) if error.kind() == ErrorKind::NotFound => Ok(false),
        Err(error) => Err(error),
    }
}

/// The error for a file that may not be written, or of which nothing is believed any more.
fn refused() -> io::Error {
    io::Error::from(ErrorKind::Other)
}

/// Whether the error says that the file may not be written.
fn may_not(kind: ErrorKind) -> bool {
    matches!(
        kind,
        ErrorKind::PermissionDenied | ErrorKind::ReadOnlyFilesystem
    )
}

/// Writes all bytes at an offset, if they end before the end of a file. A write that comes to
/// fewer bytes, or is interrupted, is gone on with.
fn put<F: RawFile>(file: &F, at: u64, bytes: &[u8]) -> io::Result<()>
    ensures { OnOk result (at + length bytes.now < 2 ^ 62) }
{
    if at >= END || bytes.len() as u64 >= END - at {
        return Err(ErrorKind::FileTooLarge.into());
    }
    file.write_all_at(bytes, at)
}
