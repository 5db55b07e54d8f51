//! Bytes of a file that are read and written in pieces.
//! For chain.rt, renewal.rt, shown_file.rt and standing.rt of this crate, and journal_file.rt.
ghost use Rattle.std.specs.Prelude.{◌≤◌, ◌^◌, IfOk, length};

use crate::folder::RawFile;
use std::io;
use std::io::ErrorKind;

/// How many bytes are copied at once.
const PIECE: usize = 16_384;

/// Reads from an offset on, as many bytes as there are, up to the slice's length, and answers how
/// many. A read that comes to fewer bytes, or is interrupted, is gone on with.
pub(crate) fn read_up_to<F: RawFile>(file: &F, at: u64, into: &mut [u8]) -> io::Result<usize>
    ensures { IfOk result (λ count. count ≤ length into.old) }
{
    let mut count = 0;
    for _ in 0..u64::MAX {
        if count >= into.len() {
            return Ok(count);
        }
        match file.read_at(&mut into[count..], at.saturating_add(count as u64)) {
            Ok(0) => return Ok(count),
            Ok(more) => count += more,
            Err(error) if error.kind() == ErrorKind::Interrupted => {}
            Err(error) => return Err(error),
        }
    }
    Err(ErrorKind::Interrupted.into())
}

/// Copies all bytes up to this end into another file. It fails if there are fewer.
pub(crate) fn copy_front<F: RawFile>(from: &F, to: &F, end: u64) -> io::Result<()>
    requires { end ≤ 2 ^ 62 }
{
    let mut piece = [0u8; PIECE];
    let mut at = 0;
    while at < end {
        let wanted = (end - at).min(PIECE as u64) as usize;
        let count = read_up_to(from, at, &mut piece[..wanted])?;
        if count == 0 {
            return Err(ErrorKind::UnexpectedEof.into());
        }
        to.write_all_at(&piece[..count], at)?;
        at += count as u64;
    }
    Ok(())
}
