//! How the bodies of a journal are read: the header, and the pieces after it, each a batch of
//! records or the mark that raises the journal to version 2. Each call may run out of memory.
//! For opening.rt of this crate.

ghost use Rattle.std.specs.Prelude.{◌≡◌, ◌↔◌, ◌+◌, ◌*◌, ◌^◌, ◌≤◌, ◌<◌, ◌++◌, [], ◌∷◌, List, ℕ, length, drop, take, None, Some, IsTrue, IfOk, IfErr, OnOk, vec_capacity};
ghost use Rattle.run_records.specs.declared.header.Header.{Header};
ghost use Rattle.run_records.specs.Entries.{Entry};
ghost use Rattle.run_records.specs.Headers.{header_bytes, IsShort};
ghost use Rattle.run_records.specs.Spelling.{entry_bytes, IsEntry};
ghost use Rattle.run_journal.specs.Bad.{is_early_edit, cause_for};
ghost use Rattle.run_journal.specs.Batches.{MayStand, raising_mark};
ghost use Rattle.run_journal.specs.Reading.{AreRead, IsPieceRead, IsBatchRead, IsRecordsRead, IsUnread, RefusesBatch, RefusesBody, RefusesBodies, IsContents};

use crate::{JournalFault, OffsetList};
use gate_file::BodyList;
use nc_number::MOST_PENDING;
use run_records::{
    BadRecord, Entry, EntryList, Header, HeaderFault, Version, take_entry, take_header,
};
use std::alloc::Global;

/// What a journal holds, and its version by now.
#[derive(Drop)]
pub(crate) struct Contents {
    /// The header of the run.
    pub(crate) header: Header,
    /// The version after the last piece.
    pub(crate) version: Version,
    /// The records, in order.
    pub(crate) entries: EntryList,
    /// For each record, where its first byte stands in the file.
    pub(crate) offsets: OffsetList,
}

/// Reads the bodies of a file, of which there is one at least; or tells the first that is bad.
pub(crate) fn read_contents(alloc: Global, bodies: &BodyList) -> Result<Contents, JournalFault>
    requires { bodies.now ≡ [] → ⊥ }
    ensures contents { IfOk result
        (λ found. IsContents found.header found.version found.entries.items found.offsets bodies.now) }
    ensures refused { IfErr result (RefusesBodies bodies.now) }
{
    let header = match take_header(alloc, bodies.body(0)) {
        Ok(header) => header,
        Err(HeaderFault::NoMemory) => return Err(JournalFault::NoMemory),
        Err(HeaderFault::Bad) => {
            let offset = bodies.offset(0);
            let cause = BadRecord::NoHeader;
            return Err(JournalFault::BadRecord { offset, cause });
        }
    };
    let mut entries = EntryList::empty(alloc);
    let mut offsets = Vec::new(alloc);
    match read_pieces(header.version, bodies, &mut entries, &mut offsets) {
        Ok(version) => Ok(Contents {
            header,
            version,
            entries,
            offsets: OffsetList::of(offsets),
        }),
        Err(fault) => Err(fault),
    }
}

/// Reads the pieces after the first body, that of a header of this version, and answers the
/// version after them.
fn read_pieces(
    version: Version,
    bodies: &BodyList,
    entries: &mut EntryList,
    offsets: &mut Vec<u64>,
) -> Result<Version, JournalFault>
    requires some { 1 ≤ length bodies.now }
    requires empty { (entries.old.items ≡ []) × (offsets.old.items ≡ []) }
    ensures read { IfOk result
        (λ behind. AreRead version behind bodies.now (length bodies.now) entries.new.items offsets.new.items) }
    ensures refused { IfErr result (λ fault. (header : Header) → IsShort header → header.version ≡ version
        → take 1 bodies.now ≡ header_bytes header ∷ [] → RefusesBodies bodies.now fault) }
{
    let mut now = version;
    for index in 1..bodies.len() {
        now = read_piece(
            now,
            bodies.body(index),
            bodies.offset(index),
            entries,
            offsets,
        )?;
    }
    Ok(now)
}

/// Reads the piece that this body is, whose first byte stands at an offset of a journal that has
/// this version so far, puts its records after the others, and answers the version after it.
fn read_piece(
    version: Version,
    body: &[u8],
    at: u64,
    entries: &mut EntryList,
    offsets: &mut Vec<u64>,
) -> Result<Version, JournalFault>
    requires { at + length body.now < 2 ^ 63 }
    ensures read { IfOk result (λ behind. IsPieceRead version behind at body.now
        entries.old.items entries.new.items offsets.old.items offsets.new.items) }
    ensures refused { IfErr result (RefusesBody version at body.now) }
{
    if version == Version::One && is_mark(body) {
        return Ok(Version::Two);
    }
    match read_batch(version, body, at, entries, offsets) {
        Ok(()) => Ok(version),
        Err(fault) => Err(fault),
    }
}

/// Whether the body is the one that raises a journal to version 2: `RAISING_MARK` of journal.rt and
/// `raising_mark` of specs/Batches.antt, which change with this.
fn is_mark(body: &[u8]) -> bool
    ensures { IsTrue result ↔ (body.now ≡ raising_mark) }
{
    matches!(body, [0xFF, 0, 2])
}

/// Reads the batch that this body is, whose first byte stands at an offset, and puts its records
/// after the others.
fn read_batch(
    version: Version,
    body: &[u8],
    at: u64,
    entries: &mut EntryList,
    offsets: &mut Vec<u64>,
) -> Result<(), JournalFault>
    requires { at + length body.now < 2 ^ 63 }
    ensures read { OnOk result (IsBatchRead version at body.now
        entries.old.items entries.new.items offsets.old.items offsets.new.items) }
    ensures refused { IfErr result (RefusesBatch version at body.now) }
{
    let [count, records @ ..] = body else {
        return Err(wrong_count(at));
    };
    let count = *count as usize;
    if count == 0 || count > MOST_PENDING {
        return Err(wrong_count(at));
    }
    if entries.reserve(count).is_err() || offsets.reserve(count).is_err() {
        return Err(JournalFault::NoMemory);
    }
    match read_records(version, count, records, at + 1, entries, offsets) {
        Err(Unread { place, cause }) => {
            let offset = at + 1 + place as u64;
            Err(JournalFault::BadRecord { offset, cause })
        }
        Ok(size) => {
            if size < records.len() {
                let cause = BadRecord::WrongLength;
                return Err(JournalFault::BadRecord { offset: at, cause });
            }
            Ok(())
        }
    }
}

/// The fault of a body at this offset without a count from 1 to 64.
fn wrong_count(at: u64) -> JournalFault
    ensures { result ≡ JournalFault.BadRecord at BadRecord.WrongCount }
{
    let cause = BadRecord::WrongCount;
    JournalFault::BadRecord { offset: at, cause }
}

/// No record stands at this place after the count of a body, for this cause.
struct Unread {
    /// How many bytes of whole records stand before it.
    place: usize,
    /// Why the bytes there are no record.
    cause: BadRecord,
}

/// Reads so many records, the first of which stands at an offset, and answers how many bytes they
/// have.
fn read_records(
    version: Version,
    count: usize,
    bytes: &[u8],
    at: u64,
    entries: &mut EntryList,
    offsets: &mut Vec<u64>,
) -> Result<usize, Unread>
    requires room { length entries.old.items + count ≤ entries.old.room }
    requires places { length offsets.old.items + count ≤ vec_capacity offsets.old }
    requires small { at + length bytes.now < 2 ^ 63 }
    ensures read { IfOk result (λ size. IsRecordsRead version count at bytes.now (drop size bytes.now)
        entries.old.items entries.new.items offsets.old.items offsets.new.items) }
    ensures within { IfOk result (λ size. size ≤ length bytes.now) }
    ensures unread { IfErr result (λ fault. IsUnread version count bytes.now fault.place fault.cause) }
{
    let mut rest = bytes;
    for _round in 0..count {
        let (entry, size) = match take_record(version, rest) {
            Ok(found) => found,
            Err(cause) => {
                let place = bytes.len() - rest.len();
                return Err(Unread { place, cause });
            }
        };
        offsets.push_reserved(at + (bytes.len() - rest.len()) as u64);
        entries.push(entry);
        let (_, after) = rest.split_at(size);
        rest = after;
    }
    Ok(bytes.len() - rest.len())
}

/// Reads the record of a journal of this version that the bytes begin with, and answers it and how
/// many bytes it has. In version 1 an edit is `NoKind`, whatever follows its kind.
fn take_record(version: Version, bytes: &[u8]) -> Result<(Entry, usize), BadRecord>
    ensures bytes { IfOk result (λ found. bytes.now ≡ entry_bytes found.0 ++ drop found.1 bytes.now) }
    ensures size { IfOk result (λ found. found.1 ≡ length (entry_bytes found.0)) }
    ensures entry { IfOk result (λ found. IsEntry found.0) }
    ensures stands { IfOk result (λ found. MayStand version found.0) }
    ensures cause { IfErr result (λ cause. cause_for version bytes.now ≡ Some cause) }
{
    if version == Version::One && begins_edit(bytes) {
        return Err(BadRecord::NoKind);
    }
    take_entry(bytes)
}

/// Whether the bytes begin with a path and the kind of an edit: 1 or 2, and 6, as run_records
/// spells them.
fn begins_edit(bytes: &[u8]) -> bool
    ensures { result ≡ is_early_edit Version.One bytes.now }
{
    matches!(bytes, [1 | 2, 6, ..])
}
