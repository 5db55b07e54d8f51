//! The journal's file as the disk of a run. How the file is opened and written is in
//! journal_file.rt.
ghost use Rattle.std.specs.Prelude.{◌≡◌, ◌≤◌};
ghost use Rattle.nc_number.specs.Faults.{Rose};

use crate::folder::Folder;
use crate::journal_file::{Access, JournalFile, Trouble};
use disk_model::{Disk, Failed};
use std::io;

/// A journal in a folder as a disk, which tells nothing of what it holds.
///
/// It is looked for at the first call, and made by the first write. What it promises, as far as the
/// calls of the system keep their word:
///
/// - After a sync that answered Ok all that was written is on the medium, and the folder has the
///   journal's name there.
/// - What is found of a journal is never written over. Before the first write a new file with all
///   that counts of it takes its place, in one step, once it is on the medium: even what an earlier
///   program's failed sync left in the memory of the system alone. Bytes after the first shut gate
///   count for nothing, and are not copied. [`Access::Continue`] does so at the first sync, if the
///   run is not over.
/// - After a write or a sync that failed each call fails.
/// - One program at a time may write it, and it fails at a sync if it was moved, removed or
///   replaced meanwhile.
/// - [`Access::Look`] writes nothing and makes none. It shows the journal as it counted at the
///   first call, and what is shown is synced before, whoever writes meanwhile. If an earlier
///   program's sync failed, it may show what is in the memory of the system alone.
/// - It takes no memory.
///
/// It promises nothing of a medium that answers Ok and loses what was written, nor of a program
/// that writes the file and holds no lock.
#[derive(Drop)]
pub struct FileDisk<'a, D: Folder + Drop> {
    /// The file of the journal.
    file: JournalFile<'a, D>,
    /// How many calls have failed.
    faults: u64,
    /// What the first of them failed by.
    cause: Option<io::Error>,
}

impl<'a, D: Folder + Drop> FileDisk<'a, D> {
    /// The journal of this name in the folder, for a command that does this with it. It has not
    /// failed yet.
    pub fn new(folder: D, name: &'a str, access: Access) -> Self
        ensures { result.faults ≡ 0 }
    {
        FileDisk {
            file: JournalFile::new(folder, name, access),
            faults: 0,
            cause: None,
        }
    }

    /// Why the journal can't be used, if that is no fault of its disk: it is said to a person
    /// beside the fault.
    pub fn trouble(&self) -> Option<Trouble> {
        self.file.trouble()
    }

    /// What the first call that failed did so by, if one has. Where there is a trouble, that says
    /// more.
    pub fn cause(&self) -> Option<io::Error> {
        self.cause
    }

    /// Counts a call that failed by this, and gives the error for it.
    fn fault(&mut self, error: io::Error) -> Failed
        ensures { (self.old.faults ≤ self.new.faults) × Rose self.old.faults self.new.faults }
    {
        if self.cause.is_none() {
            self.cause = Some(error);
        }
        self.faults = self.faults.saturating_add(1);
        Failed
    }
}

impl<D: Folder + Drop> Disk for FileDisk<'_, D> {
    ghost use Rattle.real_outside.specs.Untold.{untold_disk, untold_agrees};

    ghost state = { λ disk. untold_disk disk.faults };

    ghost coherent = { λ disk. untold_agrees disk.faults };

    /// How many calls have failed.
    fn faults(&self) -> u64 {
        self.faults
    }

    /// The number of bytes of the file.
    fn len(&mut self) -> Result<u64, Failed> {
        match self.file.length() {
            Ok(count) => Ok(count),
            Err(error) => Err(self.fault(error)),
        }
    }

    /// Reads from an offset on, and gives how many bytes.
    fn read_at(&mut self, at: u64, into: &mut [u8]) -> Result<usize, Failed> {
        match self.file.read_at(at, into) {
            Ok(count) => Ok(count),
            Err(error) => Err(self.fault(error)),
        }
    }

    /// Writes all bytes at an offset.
    fn write_at(&mut self, at: u64, bytes: &[u8]) -> Result<(), Failed> {
        match self.file.write_at(at, bytes) {
            Ok(()) => Ok(()),
            Err(error) => Err(self.fault(error)),
        }
    }

    /// Puts on the medium what was written.
    fn sync(&mut self) -> Result<(), Failed> {
        match self.file.sync() {
            Ok(()) => Ok(()),
            Err(error) => Err(self.fault(error)),
        }
    }
}
