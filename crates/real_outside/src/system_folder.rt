//! The folder and the files of the operating system, behind the traits of folder.rt.
use crate::folder::{Folder, Identity, RawFile};
use crate::next_name::NextName;
use std::fs::{File, Metadata, OpenFile};
use std::io::ErrorKind;
use std::os::unix::fs::{FileExt, MetadataExt, OpenOptionsExt, fchown};
use std::rt::Files;
use std::{fs, io};

/// The current folder, by its name.
const CURRENT: &str = ".";

/// The rights of a new file until it has those of the one whose place it takes.
const OWN: u32 = 0o600;

/// The current folder of the program.
#[derive(Drop)]
pub struct SystemFolder<'a, R: Files<File = File>> {
    /// The system.
    rt: &'a R,
}

impl<'a, R: Files<File = File>> SystemFolder<'a, R> {
    /// The current folder, by this handle of the system.
    pub fn new(rt: &'a R) -> Self {
        SystemFolder { rt }
    }
}

impl<R: Files<File = File>> Folder for SystemFolder<'_, R> {
    type File = SystemFile;

    /// To be read and written, by a descriptor that is no standard stream.
    fn open(&self, name: &str) -> io::Result<SystemFile> {
        regular(&named(self.rt, name)?)?;
        apart(File::options().read(true).write(true).open(self.rt, name)?)
    }

    /// A named pipe would be waited for: it is refused before.
    fn open_to_read(&self, name: &str) -> io::Result<SystemFile> {
        regular(&named(self.rt, name)?)?;
        apart(File::open(self.rt, name)?)
    }

    /// Made anew, and never over a file that is there.
    fn make(&self, name: &str) -> io::Result<SystemFile> {
        apart(File::create_new(self.rt, name)?)
    }

    /// By the number of the file and that of its device.
    fn identity(&self, name: &str) -> io::Result<Identity> {
        Ok(identity_of(&named(self.rt, name)?))
    }

    /// By the name itself, whatever it leads to.
    fn is_link(&self, name: &str) -> io::Result<bool> {
        Ok(fs::symlink_metadata(self.rt, name)?.is_symlink())
    }

    /// Beside it, with `.new` after its name. Nobody else may read it before it has its rights.
    fn make_next(&self, name: &str, like: &SystemFile) -> io::Result<SystemFile> {
        self.discard(name);
        let next = NextName::of(name)?;
        let mut options = File::options();
        options.read(true).write(true).create_new(true).mode(OWN);
        let file = options.open(self.rt, next.as_str())?;
        give_rights(&file, &like.file)?;
        apart(file)
    }

    /// By one call of the system.
    fn replace(&self, name: &str) -> io::Result<()> {
        let next = NextName::of(name)?;
        fs::rename(self.rt, next.as_str(), name)
    }

    /// What can't be removed stays: the call that needs its place will say so.
    fn discard(&self, name: &str) {
        if let Ok(next) = NextName::of(name) {
            let _ = fs::remove_file(self.rt, next.as_str());
        }
    }

    /// The folder is opened for it and closed again.
    fn sync(&self) -> io::Result<()> {
        let folder = File::open(self.rt, CURRENT)?;
        folder.sync_all()
    }
}

/// An open file of the operating system.
#[derive(Drop)]
pub struct SystemFile {
    /// The open file.
    file: File,
}

/// The same file by a descriptor that is none of the three of the standard streams. If one of
/// those is closed the system gives its number to the next file that is opened, and a report would
/// then be written into the journal.
fn apart(file: File) -> io::Result<SystemFile> {
    Ok(SystemFile {
        file: file.try_clone()?,
    })
}

/// The data of what has this name now. A call that a signal interrupted is made again.
fn named<R: Files>(rt: &R, name: &str) -> io::Result<Metadata> {
    for _ in 0..u64::MAX {
        match fs::metadata(rt, name) {
            Err(error) if error.kind() == ErrorKind::Interrupted => {}
            answer => return answer,
        }
    }
    Err(ErrorKind::Interrupted.into())
}

/// The data of an open file. A call that a signal interrupted is made again.
fn data_of(file: &File) -> io::Result<Metadata> {
    for _ in 0..u64::MAX {
        match file.metadata() {
            Err(error) if error.kind() == ErrorKind::Interrupted => {}
            answer => return answer,
        }
    }
    Err(ErrorKind::Interrupted.into())
}

/// Fails if this is a folder, a pipe or a device.
fn regular(found: &Metadata) -> io::Result<()> {
    if found.is_file() {
        return Ok(());
    }
    Err(io::Error::new(ErrorKind::InvalidInput, "it is no regular file"))
}

/// Gives a new file the owner of another one, as far as the user may, and then its rights.
fn give_rights(file: &File, like: &File) -> io::Result<()> {
    let data = data_of(like)?;
    if fchown(file, Some(data.uid()), Some(data.gid())).is_err() {
        let _ = fchown(file, None, Some(data.gid()));
    }
    file.set_permissions(data.permissions())
}

/// Which file it is, on its device.
fn identity_of(found: &Metadata) -> Identity {
    Identity {
        device: found.dev(),
        number: found.ino(),
    }
}

impl FileExt for SystemFile {
    /// As the system reads: it may come to fewer bytes.
    fn read_at(&self, buf: &mut [u8], offset: u64) -> io::Result<usize> {
        self.file.read_at(buf, offset)
    }

    /// As the system writes: it may come to fewer bytes.
    fn write_at(&self, buf: &[u8], offset: u64) -> io::Result<usize> {
        self.file.write_at(buf, offset)
    }
}

impl RawFile for SystemFile {
    /// By the data that the system keeps of the file.
    fn length(&self) -> io::Result<u64> {
        Ok(data_of(&self.file)?.len())
    }

    /// By the number of the file and that of its device.
    fn identity(&self) -> io::Result<Identity> {
        Ok(identity_of(&data_of(&self.file)?))
    }

    /// By a lock of the system, which ends when this opening of the file is closed.
    fn hold(&self) -> io::Result<bool> {
        match self.file.try_lock() {
            Ok(()) => Ok(true),
            Err(fs::TryLockError::WouldBlock) => Ok(false),
            Err(fs::TryLockError::Error(error)) => Err(error),
        }
    }

    /// Syncs the bytes and the data of the file.
    fn sync(&self) -> io::Result<()> {
        self.file.sync_all()
    }
}
