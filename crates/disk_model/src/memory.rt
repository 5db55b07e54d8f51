//! A disk in memory, whose calls can be made to fail, and which can crash. It keeps where it was
//! written since the last sync but one: that is enough to say what a crash since then may leave.
//! Only tests, fuse.rt and other disks in memory use it.

ghost use Rattle.std.specs.Prelude.{◌≡◌, ◌⊎◌, slice_index, ◌+◌, ◌-◌, ◌^◌, ◌≤◌, ◌<◌, ◌++◌, ◌==◌, [], ℕ, length, take, drop, min, IfOk, is_err, vec_capacity, replicate, max};
ghost use Rattle.std.specs.List.{list_any};
ghost use Rattle.disk_model.specs.Device.{written_over, HasCause};
ghost use Rattle.disk_model.specs.Image.{IsImage, greatest_end};
ghost use Rattle.disk_model.specs.Memory.{IsFilled};

use crate::{Disk, Failed, Stretch};
use nc_number::NoMemory;
use std::alloc::Global;
use std::marker::Model;
use std::mem;

/// How much room `MemoryDisk::of_bytes` leaves behind the bytes.
const SPARE_ROOM: usize = 1_048_576;

/// The least length that no disk has.
const LENGTH_LIMIT: usize = 1 << 62;

/// What was on the disk at a sync, and where it was written from then to the next sync, or to now.
#[derive(Drop)]
struct Epoch {
    /// The bytes that were on the disk at the sync.
    synced: Vec<u8>,
    /// The stretches that were written since that sync, up to the next one.
    written: Vec<Stretch>,
}

/// A disk in memory, with a fixed room for its bytes and for its record of calls.
///
/// A call fails exactly where its number, counted from 1, is listed, where the record is full, or
/// where it writes past the room. A write that fails by its number writes nothing, and counts as
/// written all the same.
#[derive(Drop)]
pub struct MemoryDisk {
    /// What a read gives.
    bytes: Vec<u8>,
    /// The last sync, and the writes since.
    present: Epoch,
    /// The last sync but one, and the writes between that and the last one.
    earlier: Epoch,
    /// How many calls there were just after the last sync.
    synced_at: u64,
    /// How many bytes there is room for.
    room: usize,
    /// How many calls there is room for.
    call_room: usize,
    /// The numbers, from 1, of the calls that are to fail.
    failing: Vec<u64>,
    /// How many calls there were.
    calls: u64,
    /// The greatest end that a write was asked for.
    reach: u128,
    /// How many calls failed.
    faults: u64,
}

impl Model for MemoryDisk {
    ghost use Rattle.disk_model.specs.Memory.{Memory};

    ghost Value = { Memory };

    ghost use Rattle.disk_model.specs.Inside.{memory_of, HasRoom};

    ghost view = { memory_of };

    ghost invariant = { HasRoom };
}

/// What a crash makes of what was written since the last sync.
#[derive(Clone, Copy, Debug, PartialEq, Eq)]
pub enum Crash {
    /// All is as it was written.
    Kept,
    /// The disk is as it was synced.
    Lost,
    /// Each byte of the written ranges, and each behind the old end, is this one.
    Fill(u8),
}

impl MemoryDisk {
    ghost use Rattle.disk_model.specs.Memory.{fresh_disk};

    /// An empty disk, with room for so many bytes and for a record of so many calls. `failing` are
    /// the numbers of the calls that are to fail, from 1. A room of 2^62 bytes or more is
    /// `NoMemory`.
    pub fn new(
        alloc: Global,
        room: usize,
        calls: usize,
        failing: &[u64],
    ) -> Result<MemoryDisk, NoMemory>
        ensures { IfOk result (λ d. d ≡ fresh_disk [] room calls failing.now) }
    {
        if room >= LENGTH_LIMIT {
            return Err(NoMemory);
        }
        let bytes = Vec::with_capacity(alloc, room)?;
        MemoryDisk::with_bytes(alloc, bytes, room, calls, failing)
    }

    /// A disk that holds these bytes, with room for 1,048,576 more. A room of 2^62 bytes or more is
    /// `NoMemory`.
    pub fn of_bytes(
        alloc: Global,
        bytes: Vec<u8>,
        calls: usize,
        failing: &[u64],
    ) -> Result<MemoryDisk, NoMemory>
        ensures { IfOk result (λ d. d ≡ fresh_disk bytes.items (length bytes.items + 1048576) calls failing.now) }
    {
        let mut bytes = bytes;
        bytes.reserve(SPARE_ROOM)?;
        let room = bytes.len() + SPARE_ROOM;
        if room >= LENGTH_LIMIT {
            return Err(NoMemory);
        }
        MemoryDisk::with_bytes(alloc, bytes, room, calls, failing)
    }

    /// A disk that holds these bytes, whose list has this room already.
    fn with_bytes(
        alloc: Global,
        bytes: Vec<u8>,
        room: usize,
        calls: usize,
        failing: &[u64],
    ) -> Result<MemoryDisk, NoMemory>
        requires fits { length bytes.items ≤ room }
        requires room { room ≤ vec_capacity bytes }
        requires small { room < 2 ^ 62 }
        ensures { IfOk result (λ d. d ≡ fresh_disk bytes.items room calls failing.now) }
    {
        let mut present = Epoch::with_room(alloc, room, calls)?;
        let mut earlier = Epoch::with_room(alloc, room, calls)?;
        present.synced.extend_from_slice(&bytes)?;
        earlier.synced.extend_from_slice(&bytes)?;
        Ok(MemoryDisk {
            bytes,
            present,
            earlier,
            synced_at: 0,
            room,
            call_room: calls,
            failing: failing.to_vec(alloc)?,
            calls: 0,
            reach: 0,
            faults: 0,
        })
    }

    /// What a read gives.
    pub fn bytes(&self) -> &[u8]
        ensures { result.now ≡ self.now.bytes }
    {
        &self.bytes
    }
}

impl Epoch {
    /// Nothing synced and nothing written, with room for so many bytes and stretches.
    fn with_room(alloc: Global, room: usize, calls: usize) -> Result<Epoch, NoMemory>
        ensures synced { IfOk result (λ e. (e.synced.items ≡ []) × (room ≤ vec_capacity e.synced)) }
        ensures written { IfOk result (λ e. (e.written.items ≡ []) × (calls ≤ vec_capacity e.written)) }
    {
        Ok(Epoch {
            synced: Vec::with_capacity(alloc, room)?,
            written: Vec::with_capacity(alloc, calls)?,
        })
    }
}

/// Puts bytes in at an offset, over what is there, and zeros between the end and an offset past it.
fn put_over(content: &mut Vec<u8>, at: usize, bytes: &[u8])
    requires { at + length bytes.now ≤ vec_capacity content.old }
    ensures items { content.new.items ≡ written_over content.old.items at bytes.now }
    ensures capacity { vec_capacity content.old ≤ vec_capacity content.new }
{
    fill_up(content, at + bytes.len(), 0);
    put_inside(content, at, bytes);
}

/// Makes the content at least so long, with this byte after its end.
fn fill_up(content: &mut Vec<u8>, end: usize, with: u8)
    requires { end ≤ vec_capacity content.old }
    ensures items { content.new.items ≡ content.old.items ++ replicate (end - length content.old.items) with }
    ensures capacity { vec_capacity content.old ≤ vec_capacity content.new }
{
    if content.len() < end {
        content.resize(end, with).unwrap();
    }
}

/// Puts bytes over others, of which there are as many.
fn put_inside(content: &mut [u8], at: usize, bytes: &[u8])
    requires { at + length bytes.now ≤ length content.old }
    ensures { content.new ≡ take at content.old ++ bytes.now ++ drop (at + length bytes.now) content.old }
{
    content[at..at + bytes.len()].copy_from_slice(bytes);
}

/// Whether the call of this number is to fail.
fn is_listed(failing: &[u64], number: u64) -> bool
    ensures { result ≡ list_any (λ n. n == number) failing.now }
{
    failing.iter().any(|n| *n == number)
}

impl MemoryDisk {
    ghost use Rattle.disk_model.specs.Memory.{IsKept, memory_state, next_fails, after_look, after_settling};

    /// Whether the next call fails by its number, or has no room in the record.
    fn next_call_fails(&self) -> bool
        ensures fails { result ≡ next_fails self.now }
        ensures kept { IsKept self.now }
    {
        self.call_room as u64 <= self.calls || is_listed(&self.failing, self.calls + 1)
    }

    /// Counts a call that writes nothing. Error: it is one of those that fail.
    fn look(&mut self) -> Result<(), Failed>
        ensures fails { is_err result ≡ next_fails self.old }
        ensures model { self.new ≡ after_look self.old }
        ensures cause { HasCause (memory_state self.old) (memory_state self.new) result }
        ensures kept { IsKept self.old }
    {
        let fails = self.next_call_fails();
        self.calls = self.calls.saturating_add(1);
        if fails {
            self.faults = self.faults.saturating_add(1);
            return Err(Failed);
        }
        Ok(())
    }

    /// Puts on the disk all that was written. Only what was written since the last sync but one is
    /// copied.
    fn settle(&mut self)
        ensures { self.new ≡ after_settling self.old }
    {
        let Epoch { synced, written } = &mut self.earlier;
        copy_written(synced, &self.present.synced, written);
        written.clear();
        copy_written(&mut self.present.synced, &self.bytes, &self.present.written);
        mem::swap(&mut self.present.written, &mut self.earlier.written);
        self.synced_at = self.calls;
    }
}

/// Makes the content the same as `from`, from which it differs only where was written and past its
/// end: copies these stretches, and what lies past the end.
fn copy_written(content: &mut Vec<u8>, from: &[u8], written: &[Stretch])
    requires image { IsImage content.old.items written.now from.now }
    requires room { length from.now ≤ vec_capacity content.old }
    ensures items { content.new.items ≡ from.now }
    ensures capacity { vec_capacity content.old ≤ vec_capacity content.new }
{
    for stretch in written {
        copy_stretch(content, from, stretch.at, stretch.len);
    }
    let (_, behind) = from.split_at(content.len());
    content.extend_from_slice(behind).unwrap();
}

/// Copies a stretch, as far as the content goes.
fn copy_stretch(content: &mut [u8], from: &[u8], at: usize, len: usize)
    requires { length content.old ≤ length from.now }
    ensures size { length content.new ≡ length content.old }
    ensures inside { (i : ℕ) → at ≤ i → i < at + len → i < length content.old
        → slice_index content.new i ≡ slice_index from.now i }
    ensures outside { (i : ℕ) → (i < at) ⊎ (at + len ≤ i) → slice_index content.new i ≡ slice_index content.old i }
{
    let end = at.saturating_add(len).min(content.len());
    if at < end {
        content[at..end].copy_from_slice(&from[at..end]);
    }
}

impl MemoryDisk {
    ghost use Rattle.disk_model.specs.Memory.{IsKept, next_fails, refuses_write, after_request, with_fault, with_mark};

    /// Counts a write up to this end. Says whether it is refused and not even noted (the record is
    /// full, or the end lies past the room), and whether the call fails by its number or for a full
    /// record.
    fn count_write(&mut self, end: u128) -> (bool, bool)
        ensures refused { result.0 ≡ refuses_write self.old end }
        ensures fails { result.1 ≡ next_fails self.old }
        ensures model { self.new ≡ after_request self.old end }
        ensures kept { IsKept self.old }
    {
        let refused = self.call_room as u64 <= self.calls || (self.room as u128) < end;
        let fails = self.next_call_fails();
        self.calls = self.calls.saturating_add(1);
        self.reach = self.reach.max(end);
        (refused, fails)
    }

    /// Counts one fault more.
    fn count_fault(&mut self)
        ensures { self.new ≡ with_fault self.old }
    {
        self.faults = self.faults.saturating_add(1);
    }

    /// Notes where a write is made.
    fn mark(&mut self, at: usize, len: usize)
        requires within { at + len ≤ self.old.room }
        requires counted { length self.old.written < self.old.calls }
        requires recorded { length self.old.written < self.old.call_room }
        ensures { self.new ≡ with_mark self.old at len }
    {
        self.present.written.push_reserved(Stretch { at, len });
    }

    /// Writes the bytes where the write was noted before.
    fn put(&mut self, at: usize, bytes: &[u8])
        requires within { at + length bytes.now ≤ self.old.room }
        requires image { IsImage self.old.synced self.old.written (written_over self.old.bytes at bytes.now) }
        ensures { self.new ≡ record self.old { bytes = written_over self.old.bytes at bytes.now } }
    {
        put_over(&mut self.bytes, at, bytes);
    }
}

impl MemoryDisk {
    ghost use Rattle.disk_model.specs.Memory.{memory_state, disk_after_crash, IsFilled};

    /// The disk after a crash, with what was written since the last sync as `pick` says. All of it
    /// is on the disk then. It takes no memory.
    pub fn crash(self, pick: Crash) -> MemoryDisk
        ensures image { (memory_state self).image result.bytes }
        ensures torn { IsImage self.synced self.written result.bytes }
        ensures crashed { result ≡ disk_after_crash self result.bytes }
        ensures kept { pick ≡ Crash.Kept → result.bytes ≡ self.bytes }
        ensures lost { pick ≡ Crash.Lost → result.bytes ≡ self.synced }
        ensures filled { (with : ℕ) → pick ≡ Crash.Fill with → IsFilled with self.synced self.written result.bytes }
    {
        let mut disk = self;
        disk.lose(pick);
        disk.settle();
        disk
    }

    /// Makes of what was written since the last sync what `pick` says.
    fn lose(&mut self, pick: Crash)
        ensures image { IsImage self.old.synced self.old.written self.new.bytes }
        ensures same { self.new ≡ record self.old { bytes = self.new.bytes } }
        ensures kept { pick ≡ Crash.Kept → self.new.bytes ≡ self.old.bytes }
        ensures lost { pick ≡ Crash.Lost → self.new.bytes ≡ self.old.synced }
        ensures filled { (with : ℕ) → pick ≡ Crash.Fill with
            → IsFilled with self.old.synced self.old.written self.new.bytes }
    {
        match pick {
            Crash::Kept => {}
            Crash::Lost => copy_over(&self.present.synced, &mut self.bytes),
            Crash::Fill(with) => {
                copy_over(&self.present.synced, &mut self.bytes);
                fill_stretches(&mut self.bytes, &self.present.written, with);
            }
        }
    }
}

/// Makes a list hold these bytes alone, in the room that it has.
fn copy_over(from: &[u8], into: &mut Vec<u8>)
    requires { length from.now ≤ vec_capacity into.old }
    ensures items { into.new.items ≡ from.now }
    ensures capacity { vec_capacity into.old ≤ vec_capacity into.new }
{
    into.clear();
    into.extend_from_slice(from).unwrap();
}

/// Fills each stretch with this byte, and what lies behind the old end.
fn fill_stretches(content: &mut Vec<u8>, written: &[Stretch], with: u8)
    requires { greatest_end (length content.old.items) written.now ≤ vec_capacity content.old }
    ensures filled { IsFilled with content.old.items written.now content.new.items }
    ensures capacity { vec_capacity content.old ≤ vec_capacity content.new }
{
    for stretch in written {
        fill_up(content, stretch.at + stretch.len, with);
        fill_inside(content, stretch.at, stretch.len, with);
    }
}

/// Fills a stretch that lies within with this byte.
fn fill_inside(content: &mut [u8], at: usize, len: usize, with: u8)
    requires { at + len ≤ length content.old }
    ensures items { content.new ≡ take at content.old ++ replicate len with ++ drop (at + len) content.old }
    ensures len { length content.new ≡ length content.old }
{
    content[at..at + len].fill(with);
}

impl Disk for MemoryDisk {
    ghost use Rattle.std.specs.Prelude.{◌≡◌, ◌+◌, length, is_err};
    ghost use Rattle.disk_model.specs.Calls.{Measures, Fetches, Writes, Syncs};
    ghost use Rattle.disk_model.specs.Memory.{memory_state, next_fails, write_fails, after_look, after_sync, after_write};
    ghost use Rattle.disk_model.specs.Coherent.{memory_coherent};

    ghost state = { memory_state };

    ghost coherent = { memory_coherent };

    /// How many calls have failed.
    fn faults(&self) -> u64 {
        self.faults
    }

    /// The number of bytes. It fails if the call is listed or the record is full.
    fn len(&mut self) -> Result<u64, Failed>
        ensures fails { is_err result ≡ next_fails self.old }
        ensures model { self.new ≡ after_look self.old }
        ensures does { Measures (memory_state self.old) (memory_state self.new) result }
    {
        self.look()?;
        Ok(self.bytes.len() as u64)
    }

    /// A read from an offset on. It fails if the call is listed or the record is full.
    fn read_at(&mut self, at: u64, into: &mut [u8]) -> Result<usize, Failed>
        ensures fails { is_err result ≡ next_fails self.old }
        ensures model { self.new ≡ after_look self.old }
        ensures does { Fetches at into.old into.new (memory_state self.old) (memory_state self.new) result }
    {
        self.look()?;
        Ok(read_into(&self.bytes, at, into))
    }

    /// A write at an offset. It fails if the call is listed, the record is full, or the write ends
    /// past the room.
    fn write_at(&mut self, at: u64, bytes: &[u8]) -> Result<(), Failed>
        ensures fails { is_err result ≡ write_fails self.old (at + length bytes.now) }
        ensures model { self.new ≡ after_write self.old at bytes.now }
        ensures does { Writes at bytes.now (memory_state self.old) (memory_state self.new) result }
    {
        let end = at as u128 + bytes.len() as u128;
        let (refused, fails) = self.count_write(end);
        if refused {
            self.count_fault();
            return Err(Failed);
        }
        self.mark(at as usize, bytes.len());
        if fails {
            self.count_fault();
            return Err(Failed);
        }
        self.put(at as usize, bytes);
        Ok(())
    }

    /// Puts on the disk all that was written. It fails if the call is listed or the record is full.
    fn sync(&mut self) -> Result<(), Failed>
        ensures fails { is_err result ≡ next_fails self.old }
        ensures model { self.new ≡ after_sync self.old }
        ensures does { Syncs (memory_state self.old) (memory_state self.new) result }
    {
        self.look()?;
        self.settle();
        Ok(())
    }
}

/// Copies what stands from an offset on, as much as there is and the slice has room for, and
/// answers how many bytes that are.
pub fn read_into(bytes: &[u8], at: u64, into: &mut [u8]) -> usize
    ensures count { result ≡ min (length into.old) (length bytes.now - at) }
    ensures got { into.new ≡ take result (drop at bytes.now) ++ drop result into.old }
{
    if bytes.len() as u64 <= at {
        return 0;
    }
    let (_, rest) = bytes.split_at(at as usize);
    let count = into.len().min(rest.len());
    into[..count].copy_from_slice(&rest[..count]);
    count
}
