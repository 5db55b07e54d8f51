//! Files of the file system as the shelf: tapes, settings, edits and zones.
ghost use Rattle.std.specs.Prelude.{◌≡◌, ◌≢◌, ◌+◌, ◌≤◌, ◌++◌, List, ℕ, length, None, IfOk, OnOk, OnErr};
ghost use Rattle.std.specs.Io.{StartsWith};

use nc_outside::{FetchFault, Shelf};
use std::fs::File;
use std::io;
use std::io::{ErrorKind, Read};
use std::rt::Files;

/// The files of the file system, by the names that the operating system knows. It tells nothing of
/// them.
#[derive(Drop)]
pub struct FileShelf<'a, R: Files> {
    /// The system.
    rt: &'a R,
    /// How many calls have failed.
    faults: u64,
}

impl<'a, R: Files> FileShelf<'a, R> {
    /// The shelf over this system, which has not failed yet.
    pub fn new(rt: &'a R) -> Self
        ensures { result.faults ≡ 0 }
    {
        FileShelf { rt, faults: 0 }
    }
}

impl<R: Files> Shelf for FileShelf<'_, R> {
    ghost state = { λ shelf. record { files = None; asked = None; faults = shelf.faults } };

    /// How many calls have failed.
    fn faults(&self) -> u64 {
        self.faults
    }

    /// Appends the bytes of a file. `Absent` if there is none, `TooLong` if it has more than `max`
    /// bytes, `Failed` if the system failed.
    fn fetch(&mut self, name: &str, into: &mut Vec<u8>, max: usize) -> Result<(), FetchFault> {
        let outcome = read(self.rt, name, into, max);
        if outcome == Err(FetchFault::Failed) {
            self.faults = self.faults.saturating_add(1);
        }
        outcome
    }
}

/// Appends a file of at most `max` bytes, of which one more than that is read at most.
fn read<R: Files>(rt: &R, name: &str, into: &mut Vec<u8>, max: usize) -> Result<(), FetchFault>
    ensures ok { OnOk result ((bytes : List ℕ) × (length bytes ≤ max) × (into.new.items ≡ into.old.items ++ bytes)) }
    ensures err { OnErr result (into.new.items ≡ into.old.items) }
{
    let start = into.len();
    let limit = (max as u64).saturating_add(1);
    let fault = match append(rt, name, into, limit) {
        Ok(count) => {
            if count <= max {
                return Ok(());
            }
            FetchFault::TooLong
        }
        Err(error) => fault_of(error.kind()),
    };
    into.truncate(start);
    Err(fault)
}

/// What an error of the file system means for a fetch. There is no file below a name that is no
/// folder.
fn fault_of(kind: ErrorKind) -> FetchFault
    ensures absent { kind ≡ ErrorKind.NotFound → result ≡ FetchFault.Absent }
    ensures below_a_file { kind ≡ ErrorKind.NotADirectory → result ≡ FetchFault.Absent }
    ensures memory { kind ≡ ErrorKind.OutOfMemory → result ≡ FetchFault.NoMemory }
    ensures folder { kind ≡ ErrorKind.IsADirectory → result ≡ FetchFault.Failed }
    ensures refused { kind ≡ ErrorKind.PermissionDenied → result ≡ FetchFault.Failed }
    ensures never { result ≢ FetchFault.TooLong }
{
    match kind {
        ErrorKind::NotFound | ErrorKind::NotADirectory => FetchFault::Absent,
        ErrorKind::OutOfMemory => FetchFault::NoMemory,
        _ => FetchFault::Failed,
    }
}

/// Appends the first bytes of a file, `limit` of them at most, and tells how many they are. After
/// an error some may be there.
fn append<R: Files>(rt: &R, name: &str, into: &mut Vec<u8>, limit: u64) -> io::Result<usize>
    ensures count { IfOk result (λ count. length into.new.items ≡ length into.old.items + count) }
    ensures start { StartsWith into.new.items into.old.items }
{
    File::open(rt, name)?.take(limit).read_to_end(into)
}
