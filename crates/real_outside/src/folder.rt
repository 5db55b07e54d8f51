//! What a journal on a disk needs of the system, as traits: a folder and its files. system_folder.rt
//! is the real one; tests take one that fails. file_disk.rt, journal_file.rt and the files below
//! them are written over these traits.
use std::io;
use std::os::unix::fs::FileExt;

/// Which file it is, whatever its name is.
#[derive(Clone, Copy, Debug, PartialEq, Eq)]
pub struct Identity {
    /// The device that it is on.
    pub device: u64,
    /// Its number there.
    pub number: u64,
}

/// The folder that a journal is in. A call that a signal interrupted is made again.
pub trait Folder {
    /// An open file of the folder.
    type File: RawFile;

    /// Opens a file to be read and written. `NotFound` if there is none. What is no regular file is
    /// refused.
    fn open(&self, name: &str) -> io::Result<Self::File>;

    /// Opens a file to be read alone. `NotFound` if there is none. What is no regular file is
    /// refused.
    fn open_to_read(&self, name: &str) -> io::Result<Self::File>;

    /// Makes a file that is not there, and opens it to be read and written. `AlreadyExists` if
    /// there is one.
    fn make(&self, name: &str) -> io::Result<Self::File>;

    /// Which file has this name now. `NotFound` if none has it.
    fn identity(&self, name: &str) -> io::Result<Identity>;

    /// Whether this name is a symbolic link. `NotFound` if nothing has it.
    fn is_link(&self, name: &str) -> io::Result<bool>;

    /// Makes the file that may take the place of the one of this name, without a byte, and opens it
    /// to be read and written. Its rights are those of the file that is given, and its owner as far
    /// as the user may set that. One that an earlier command left is removed before.
    fn make_next(&self, name: &str, like: &Self::File) -> io::Result<Self::File>;

    /// Gives this name to the file that `make_next` made last for it, in one step: at any moment
    /// one of the two files has it.
    fn replace(&self, name: &str) -> io::Result<()>;

    /// Removes the file that `make_next` made for this name, if it is there still.
    fn discard(&self, name: &str);

    /// Puts on the medium which names the folder has.
    fn sync(&self) -> io::Result<()>;
}

/// An open file, as the system has it. `read_at` and `write_at` may come to fewer bytes than they
/// were asked for, or be `Interrupted`; the other calls are made again if a signal interrupted
/// them. It is closed, and its lock with it, when it is dropped.
pub trait RawFile: FileExt + Drop {
    /// The number of bytes.
    fn length(&self) -> io::Result<u64>;

    /// Which file it is.
    fn identity(&self) -> io::Result<Identity>;

    /// Keeps every other from holding the file, up to the end of this one. False if another
    /// holds it; it does not wait.
    fn hold(&self) -> io::Result<bool>;

    /// Puts on the medium what was written. After an error the system may take what is not there
    /// for written, so that a later Ok, of another opening of the file too, tells nothing of it.
    fn sync(&self) -> io::Result<()>;
}
