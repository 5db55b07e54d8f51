//! The list of a record's stamps, and lists of records.

ghost use Rattle.std.specs.Prelude.{◌≡◌, ◌+◌, ◌^◌, ◌≤◌, ◌<◌, ◌++◌, [], ◌∷◌, List, ℕ, length, get_or, OnOk, vec_len, vec_capacity};
ghost use Rattle.nc_number.specs.declared.limits.TheConstants.{MOST_READS};
ghost use Rattle.run_records.specs.Stamps.{AreStamps};
ghost use Rattle.run_records.specs.Entries.{edit_of};
ghost use Rattle.run_records.specs.Heads.{step_of, place_of, edits_in};

use crate::head::{Head, HeadKind};
use crate::{Edit, Entry, EntryKind};
use arrayvec::ArrayVec;
use nc_number::{MOST_READS, NoMemory, Var};
use offset_store::Slot;
use std::alloc::Global;
use std::marker::Model;

/// The stamps of a record in order, at most 32: for each read of a shared variable, the number of
/// records at that moment. It takes no memory.
#[derive(Debug, Drop)]
pub struct StampList {
    /// The stamps, in order.
    stamps: ArrayVec<u32, MOST_READS>,
}

impl Model for StampList {
    ghost use Rattle.std.specs.Prelude.{List, ℕ};

    ghost Value = { List ℕ };

    ghost view = { λ l. l.stamps.items };

    ghost use Rattle.run_records.specs.Stamps.{AreFew};

    ghost invariant = { λ l. AreFew l.stamps.items };
}

impl StampList {
    /// A list without a stamp.
    pub fn empty() -> StampList
        ensures { result ≡ [] }
    {
        StampList {
            stamps: ArrayVec::new(),
        }
    }

    /// The list of these stamps, at most 32.
    pub(crate) fn of(stamps: &[u32]) -> StampList
        requires { length stamps.now ≤ MOST_READS }
        ensures { result ≡ stamps.now }
    {
        let mut list = StampList::empty();
        for stamp in stamps {
            list.push(*stamp);
        }
        list
    }

    /// The stamps, in order.
    pub fn as_slice(&self) -> &[u32]
        ensures stamps { result.now ≡ self.now }
        ensures fits { length self.now ≤ MOST_READS }
        ensures are { AreStamps self.now }
    {
        self.stamps.as_slice()
    }

    /// Adds a stamp after the others.
    pub fn push(&mut self, stamp: u32)
        requires { length self.old < MOST_READS }
        ensures { self.new ≡ self.old ++ stamp ∷ [] }
    {
        self.stamps.push(stamp);
    }
}

/// A list of records, the first one first. It keeps the stamps of all of them in one place, and
/// their edits in another, so that a record without stamps is small.
#[derive(Debug, Drop)]
pub struct EntryList {
    /// The head of each record.
    heads: Vec<Head>,
    /// The stamps of all records, record by record.
    stamps: Vec<u32>,
    /// The edits of all records, in order.
    edits: Vec<Edit>,
    /// How many records there is room for in all.
    room: usize,
}

impl Model for EntryList {
    ghost use Rattle.std.specs.Prelude.{All, vec_len, vec_capacity};
    ghost use Rattle.run_records.specs.Room.{Entries};
    ghost use Rattle.run_records.specs.Heads.{entries_of, StandsIn, HasRoom};

    ghost Value = { Entries };

    ghost view = { λ l. record { items = entries_of l.stamps.items l.edits.items l.heads.items; room = l.room } };

    ghost invariant = { λ l. All (StandsIn l.stamps.items l.edits.items) l.heads.items
        × HasRoom l.room (vec_len l.heads) (vec_capacity l.heads) (vec_len l.stamps) (vec_capacity l.stamps)
        (vec_len l.edits) (vec_capacity l.edits) };
}

impl EntryList {
    /// A list without a record.
    pub fn empty(alloc: Global) -> EntryList
        ensures { result.items ≡ [] }
    {
        EntryList {
            heads: Vec::new(alloc),
            stamps: Vec::new(alloc),
            edits: Vec::new(alloc),
            room: 0,
        }
    }

    /// How many records there are.
    pub fn len(&self) -> usize
        ensures { result ≡ length self.now.items }
    {
        self.heads.len()
    }

    /// The record of this index. It takes no memory.
    pub fn get(&self, index: usize) -> Entry
        requires { index < length self.now.items }
        ensures { result ≡ get_or self.now.items index result }
    {
        let head = self.heads[index];
        match head.kind.step() {
            Some(kind) => {
                let end = head.first + head.count as usize;
                Entry::of_step(
                    head.path,
                    kind,
                    StampList::of(&self.stamps[head.first..end]),
                )
            }
            None => Entry::of_edit(head.path, &self.edits[head.first]),
        }
    }

    /// Makes room for so many records more. The error is that memory ran out.
    pub fn reserve(&mut self, n: usize) -> Result<(), NoMemory>
        ensures items { self.new.items ≡ self.old.items }
        ensures room { OnOk result (length self.new.items + n ≤ self.new.room) }
        ensures stays { self.old.room ≤ self.new.room }
    {
        let Some(stamps) = n.checked_mul(MOST_READS) else {
            return Err(NoMemory);
        };
        self.heads.reserve(n)?;
        self.stamps.reserve(stamps)?;
        self.edits.reserve(n)?;
        self.room = self.room.max(self.heads.len() + n);
        Ok(())
    }

    /// Adds a record after the others. It takes no memory.
    pub fn push(&mut self, entry: Entry)
        requires { length self.old.items < self.old.room }
        ensures items { self.new.items ≡ self.old.items ++ entry ∷ [] }
        ensures room { self.new.room ≡ self.old.room }
    {
        let stamps = entry.stamps.as_slice();
        let kind = HeadKind::of(&entry.kind);
        self.heads.push_reserved(Head {
            path: entry.path,
            kind,
            count: stamps.len() as u8,
            first: place_of(kind, self.stamps.len(), self.edits.len()),
        });
        self.stamps.extend_from_slice(stamps).unwrap();
        push_edit(&mut self.edits, &entry.kind);
    }
}

/// Where the stamps of a new record, or its edit, will stand: after so many stamps, or so many
/// edits.
fn place_of(kind: HeadKind, stamps: usize, edits: usize) -> usize
    ensures { result ≡ place_of (step_of kind) stamps edits }
{
    match kind.step() {
        Some(_) => stamps,
        None => edits,
    }
}

/// Adds the edit that a kind is, if it is one, after the others.
fn push_edit(edits: &mut Vec<Edit>, kind: &EntryKind)
    requires { vec_len edits.old < vec_capacity edits.old }
    ensures items { edits.new.items ≡ edits.old.items ++ edits_in (edit_of kind.now) }
    ensures len { vec_len edits.new ≡ vec_len edits.old + length (edits_in (edit_of kind.now)) }
    ensures capacity { vec_capacity edits.old ≤ vec_capacity edits.new }
{
    match kind {
        EntryKind::Edited(Edit::Offset { slot, to }) => {
            let slot: Slot = *slot;
            edits.push_reserved(Edit::Offset { slot, to: *to });
        }
        EntryKind::Edited(Edit::Common { variable, to }) => {
            let to: Var = *to;
            edits.push_reserved(Edit::Common {
                variable: *variable,
                to,
            });
        }
        _ => {}
    }
}
