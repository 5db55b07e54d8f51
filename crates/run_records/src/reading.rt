//! A record, read from its bytes, or the cause why they begin with none. entry.rt spells it. Whether
//! it is legal is not asked here.

ghost use Rattle.std.specs.Prelude.{◌≡◌, ◌+◌, ◌*◌, ◌≤◌, ◌++◌, ◌∷◌, ℕ, List, length, take, drop, Some, None, Ok, IfOk, IfErr, IfSome, IsSome, ◌↔◌, ◌⊎◌};
ghost use Rattle.nc_number.specs.declared.limits.TheConstants.{MOST_READS};
ghost use Rattle.nc_number.specs.Path.{number_of};
ghost use Rattle.run_records.specs.Entries.{edit_of};
ghost use Rattle.run_records.specs.Spelling.{kind_number, stamp_bytes, numbers_bytes, entry_bytes, IsEntry};
ghost use Rattle.run_records.specs.Stamps.{AreStamps};
ghost use Rattle.run_records.specs.Causes.{cause_of, numbers_in};

use crate::numbers::{EditNumbers, edit_with};
use crate::{BadRecord, Entry, EntryKind, StampList};
use byteorder::{BigEndian, ByteOrder};
use nc_number::{MOST_READS, Path};

/// The kind byte of an edit.
const EDITED: u8 = 6;

/// How many bytes the numbers of an edit have.
const EDIT_SIZE: usize = 19;

/// Reads the record that the bytes begin with, and answers it and how many bytes it has. It takes
/// no memory. If there is none, the error is the least cause that holds of the bytes that are
/// there: `NoPath`, `NoKind`, `TooManyStamps`, `WrongLength` if the bytes end before the record
/// does, or `BadEdit`.
pub fn take_entry(bytes: &[u8]) -> Result<(Entry, usize), BadRecord>
    ensures whole { IfOk result (λ found. cause_of bytes.now ≡ None) }
    ensures bytes { IfOk result (λ found. bytes.now ≡ entry_bytes found.0 ++ drop found.1 bytes.now) }
    ensures size { IfOk result (λ found. found.1 ≡ length (entry_bytes found.0)) }
    ensures entry { IfOk result (λ found. IsEntry found.0) }
    ensures cause { IfErr result (λ cause. cause_of bytes.now ≡ Some cause) }
{
    let [first, rest @ ..] = bytes else {
        return Err(BadRecord::WrongLength);
    };
    let Some(path) = Path::of_number(*first) else {
        return Err(BadRecord::NoPath);
    };
    let [second, rest @ ..] = rest else {
        return Err(BadRecord::WrongLength);
    };
    if *second == EDITED {
        return take_edit(path, rest);
    }
    match kind_of(*second) {
        Some(kind) => take_step(path, kind, rest),
        None => Err(BadRecord::NoKind),
    }
}

/// The record of an edit of this path, whose numbers the bytes begin with, and its size. Errors:
/// `WrongLength`, or `BadEdit`.
fn take_edit(path: Path, bytes: &[u8]) -> Result<(Entry, usize), BadRecord>
    ensures whole { IfOk result (λ found. cause_of (number_of path ∷ 6 ∷ bytes.now) ≡ None) }
    ensures bytes { IfOk result (λ found. number_of path ∷ 6 ∷ bytes.now
        ≡ entry_bytes found.0 ++ drop found.1 (number_of path ∷ 6 ∷ bytes.now)) }
    ensures size { IfOk result (λ found. found.1 ≡ length (entry_bytes found.0)) }
    ensures entry { IfOk result (λ found. IsEntry found.0) }
    ensures cause { IfErr result (λ cause. cause_of (number_of path ∷ 6 ∷ bytes.now) ≡ Some cause) }
{
    if bytes.len() < EDIT_SIZE {
        return Err(BadRecord::WrongLength);
    }
    let numbers = take_numbers(bytes);
    match edit_with(&numbers) {
        Some(edit) => Ok((Entry::of_edit(path, &edit), 2 + EDIT_SIZE)),
        None => Err(BadRecord::BadEdit),
    }
}

/// The numbers of an edit, which the bytes begin with.
fn take_numbers(bytes: &[u8]) -> EditNumbers
    requires { 19 ≤ length bytes.now }
    ensures numbers { result ≡ numbers_in bytes.now }
    ensures bytes { numbers_bytes result ++ drop 19 bytes.now ≡ bytes.now }
{
    let (_, number) = bytes.split_at(1);
    let (_, a) = bytes.split_at(3);
    let (_, b) = bytes.split_at(11);
    EditNumbers {
        what: bytes[0],
        number: BigEndian::read_u16(number),
        a: BigEndian::read_i64(a),
        b: BigEndian::read_i64(b),
    }
}

/// The record of a step of this path and this kind, and its size. The bytes begin with the number
/// of its stamps and the stamps. Errors: `WrongLength`, or `TooManyStamps`.
fn take_step(path: Path, kind: EntryKind, bytes: &[u8]) -> Result<(Entry, usize), BadRecord>
    requires { edit_of kind ≡ None }
    ensures whole { IfOk result (λ found. cause_of (number_of path ∷ kind_number kind ∷ bytes.now) ≡ None) }
    ensures bytes { IfOk result (λ found. number_of path ∷ kind_number kind ∷ bytes.now
        ≡ entry_bytes found.0 ++ drop found.1 (number_of path ∷ kind_number kind ∷ bytes.now)) }
    ensures size { IfOk result (λ found. found.1 ≡ length (entry_bytes found.0)) }
    ensures entry { IfOk result (λ found. IsEntry found.0) }
    ensures cause { IfErr result (λ cause. cause_of (number_of path ∷ kind_number kind ∷ bytes.now) ≡ Some cause) }
{
    let [count, rest @ ..] = bytes else {
        return Err(BadRecord::WrongLength);
    };
    let count = *count as usize;
    if count > MOST_READS {
        return Err(BadRecord::TooManyStamps);
    }
    if rest.len() < 4 * count {
        return Err(BadRecord::WrongLength);
    }
    let (front, _) = rest.split_at(4 * count);
    let stamps = take_stamps(front, count);
    Ok((Entry::of_step(path, kind, stamps), 3 + 4 * count))
}

/// The step of this kind byte, if it is one of 1 to 5.
fn kind_of(byte: u8) -> Option<EntryKind>
    ensures some { IfSome result (λ kind. kind_number kind ≡ byte) }
    ensures step { IfSome result (λ kind. edit_of kind ≡ None) }
    ensures none { IsSome result ↔ ((1 ≤ byte) × (byte ≤ 5)) }
{
    match byte {
        1 => Some(EntryKind::Did),
        2 => Some(EntryKind::Arrived),
        3 => Some(EntryKind::Met),
        4 => Some(EntryKind::Ended),
        5 => Some(EntryKind::Alarmed),
        _ => None,
    }
}

/// The stamps that these bytes spell, of which there are so many.
fn take_stamps(bytes: &[u8], count: usize) -> StampList
    requires size { length bytes.now ≡ 4 * count }
    requires few { count ≤ MOST_READS }
    ensures bytes { stamp_bytes result ≡ bytes.now }
    ensures count { length result ≡ count }
    ensures stamps { AreStamps result }
{
    let mut stamps = StampList::empty();
    let mut rest = bytes;
    for _round in 0..count {
        let (front, after) = rest.split_at(4);
        stamps.push(BigEndian::read_u32(front));
        rest = after;
    }
    stamps
}
