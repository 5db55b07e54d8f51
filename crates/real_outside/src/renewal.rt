//! A new file with all that counts of a journal, in place of the old one.
//!
//! After a write to the medium that failed, the system takes for written what it has in memory
//! alone, and a sync leaves it there. So what is found of a journal is on the medium for certain
//! only once it was written and synced anew. That is never done over the bytes that are there: a
//! stop inside a write may leave anything in its range.
//! For journal_file.rt of this crate.
ghost use Rattle.std.specs.Prelude.{◌≤◌, ◌<◌, ◌^◌, IfOk};

use crate::chain::{END, LastGate, last_gate};
use crate::folder::{Folder, RawFile};
use crate::pieces::copy_front;
use std::io;
use std::io::ErrorKind;

/// Puts a new file, with all that counts of the old one, in its place, and both on the medium: the
/// bytes and the name. It is held before it has the name, so that nobody else may write it. The old
/// file is only read, and has the name if this fails before the new one is whole.
pub(crate) fn renewed<D: Folder>(folder: &D, name: &str, old: &D::File) -> io::Result<D::File> {
    let next = folder.make_next(name, old)?;
    match take_over(folder, name, old, &next) {
        Ok(()) => Ok(next),
        Err(error) => {
            folder.discard(name);
            Err(error)
        }
    }
}

/// Fills the new file, brings it to the medium and gives it the name.
fn take_over<D: Folder>(folder: &D, name: &str, old: &D::File, next: &D::File) -> io::Result<()> {
    if !next.hold()? {
        return Err(ErrorKind::WouldBlock.into());
    }
    copy_front(old, next, counted(old)?)?;
    next.sync()?;
    folder.replace(name)?;
    folder.sync()
}

/// How many bytes of a journal count: those up to its first shut gate, or all if it is cut short.
fn counted<F: RawFile>(file: &F) -> io::Result<u64>
    ensures { IfOk result (λ n. n ≤ 2 ^ 62) }
{
    let LastGate { at, is_shut } = last_gate(file)?;
    if is_shut {
        return Ok(at + 1);
    }
    length_of(file)
}

/// How long a file is. One that is longer than a file may be is refused.
pub(crate) fn length_of<F: RawFile>(file: &F) -> io::Result<u64>
    ensures { IfOk result (λ n. n < 2 ^ 62) }
{
    let length = file.length()?;
    if length >= END {
        return Err(ErrorKind::FileTooLarge.into());
    }
    Ok(length)
}
