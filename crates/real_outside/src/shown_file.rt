//! A journal that is read while another command may write it.
//!
//! It is shown as it counted when it was looked at first: up to its first gate that was shut then,
//! and with that gate shut, whatever is written meanwhile. That takes no memory, and no more of the
//! file is read than is asked for, but for the gates.
//! For journal_file.rt of this crate.
ghost use Rattle.std.specs.Prelude.{◌≤◌, ◌<◌, ◌^◌, IfOk, length};

use crate::chain::{END, LastGate, last_gate};
use crate::folder::RawFile;
use crate::pieces::read_up_to;
use std::io;
use std::io::ErrorKind;

/// How much of a journal is shown.
#[derive(Clone, Copy)]
pub(crate) struct Extent {
    /// How many bytes are shown.
    length: u64,
    /// Where a shut gate is shown, whatever stands there by now.
    shut: Option<u64>,
}

/// Sees to it that all that is shown is on the medium: it is looked at before the sync, so that
/// nothing is shown which came later. What a sync that failed left in the memory of the system
/// alone is shown too: only a command that writes the journal puts that on the medium.
///
/// A medium that can't be synced since it can't be written is no fault: nothing of it waits to be
/// written.
pub(crate) fn sync_shown<F: RawFile>(file: &F, shown: &mut Option<Extent>) -> io::Result<()> {
    settled_extent(file, shown)?;
    written(file.sync())
}

/// The number of bytes that are shown.
pub(crate) fn length_shown<F: RawFile>(file: &F, shown: &mut Option<Extent>) -> io::Result<u64>
    ensures { IfOk result (λ n. n < 2 ^ 62) }
{
    let length = settled_extent(file, shown)?.length;
    if length >= END {
        return Err(ErrorKind::FileTooLarge.into());
    }
    Ok(length)
}

/// Reads from an offset on, as many bytes as are shown, up to the slice's length, and answers how
/// many.
pub(crate) fn read_shown<F: RawFile>(
    file: &F,
    shown: &mut Option<Extent>,
    at: u64,
    into: &mut [u8],
) -> io::Result<usize>
    ensures { IfOk result (λ n. n ≤ length into.old) }
{
    let Extent { length, shut } = settled_extent(file, shown)?;
    let wanted = length.saturating_sub(at).min(into.len() as u64) as usize;
    let count = read_up_to(file, at, &mut into[..wanted])?;
    if let Some(gate) = shut {
        put_shut(&mut into[..count], gate.wrapping_sub(at));
    }
    Ok(count)
}

/// How much is shown, which is settled at the first call.
fn settled_extent<F: RawFile>(file: &F, shown: &mut Option<Extent>) -> io::Result<Extent> {
    if let Some(extent) = *shown {
        return Ok(extent);
    }
    let extent = extent_of(file)?;
    *shown = Some(extent);
    Ok(extent)
}

/// How much of a journal counts now. The length is asked for after the last gate was read: if
/// that one is open, the file is cut short.
fn extent_of<F: RawFile>(file: &F) -> io::Result<Extent> {
    let LastGate { at, is_shut } = last_gate(file)?;
    if is_shut {
        return Ok(Extent {
            length: at + 1,
            shut: Some(at),
        });
    }
    Ok(Extent {
        length: file.length()?,
        shut: None,
    })
}

/// Puts a shut gate at this place of the bytes, if they go so far.
fn put_shut(bytes: &mut [u8], place: u64) {
    if place < bytes.len() as u64 {
        bytes[place as usize] = 0;
    }
}

/// The answer of a sync, if a medium that can't be written has nothing to sync.
pub(crate) fn written(answer: io::Result<()>) -> io::Result<()> {
    match answer {
        Err(error) if is_unwritable(error.kind()) => Ok(()),
        _ => answer,
    }
}

/// Whether a sync failed since its medium can't be written.
fn is_unwritable(kind: ErrorKind) -> bool {
    matches!(
        kind,
        ErrorKind::InvalidInput | ErrorKind::ReadOnlyFilesystem
    )
}
