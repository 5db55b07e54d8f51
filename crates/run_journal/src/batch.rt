//! The batch that is to be written next: the body of records that are not yet on the disk.
//! For this crate alone: journal.rt gathers records in one, opening.rt makes one that is empty, and
//! filling.rt fills one after another.

ghost use Rattle.std.specs.Prelude.{◌≡◌, ◌+◌, ◌≤◌, ◌<◌, ◌++◌, [], ◌∷◌, List, ℕ, length, drop, slice_index, IfOk, vec_capacity};
ghost use Rattle.nc_number.specs.declared.limits.TheConstants.{MOST_PENDING};
ghost use Rattle.gate_file.specs.declared.gate.TheConstants.{LONGEST_BODY};
ghost use Rattle.run_records.specs.declared.entry.TheConstants.{LONGEST_RECORD};
ghost use Rattle.run_records.specs.Entries.{Entry};
ghost use Rattle.run_records.specs.Spelling.{entry_bytes, IsEntry};
ghost use Rattle.run_records.specs.declared.version.Version.{Version};
ghost use Rattle.run_journal.specs.Batches.{MayStand};
ghost use Rattle.run_journal.specs.Kept.{HasBatch, pending_in};
ghost use Rattle.run_journal.specs.Stands.{Pends};

use gate_file::LONGEST_BODY;
use nc_number::NoMemory;
use run_records::{Entry, LONGEST_RECORD, put_entry};
use std::alloc::Global;
use std::marker::Model;

/// The body that is to be written next: a count, and that many records. It has room for a whole
/// batch.
#[derive(Drop)]
pub(crate) struct Batch {
    /// The count, and the records.
    bytes: Vec<u8>,
}

impl Model for Batch {
    ghost use Rattle.std.specs.Prelude.{List, ℕ, ◌≤◌, vec_capacity};
    ghost use Rattle.gate_file.specs.declared.gate.TheConstants.{LONGEST_BODY};
    ghost use Rattle.run_journal.specs.Kept.{HasBatch};

    ghost Value = { List ℕ };

    ghost view = { λ b. b.bytes.items };

    ghost invariant = { λ b. HasBatch b.bytes.items × (LONGEST_BODY ≤ vec_capacity b.bytes) };
}

impl Batch {
    /// A batch without a record, with room for 64.
    pub(crate) fn empty(alloc: Global) -> Result<Batch, NoMemory>
        ensures { IfOk result (λ batch. batch ≡ 0 ∷ []) }
    {
        let mut bytes = Vec::with_capacity(alloc, LONGEST_BODY)?;
        bytes.push(0).unwrap();
        Ok(Batch { bytes })
    }

    /// How many records it has.
    pub(crate) fn count(&self) -> usize
        ensures count { result ≡ pending_in self.now }
        ensures has { HasBatch self.now }
    {
        self.bytes[0] as usize
    }

    /// Puts a record after the others.
    pub(crate) fn put(&mut self, entry: &Entry)
        requires { pending_in self.old < MOST_PENDING }
        ensures { (version : Version) (pending : List Entry) → MayStand version entry.now
            → Pends version pending self.old
            → Pends version (pending ++ entry.now ∷ []) self.new }
    {
        put_behind(&mut self.bytes, entry);
    }

    /// The body: its count, and its records.
    pub(crate) fn as_slice(&self) -> &[u8]
        ensures bytes { result.now ≡ self.now }
        ensures has { HasBatch self.now }
    {
        &self.bytes
    }

    /// Takes all records out.
    pub(crate) fn clear(&mut self)
        ensures { self.new ≡ 0 ∷ [] }
    {
        self.bytes.clear();
        self.bytes.push(0).unwrap();
    }
}

/// Puts a record after those of a body, and counts it.
fn put_behind(body: &mut Vec<u8>, entry: &Entry)
    requires has { HasBatch body.old.items }
    requires few { pending_in body.old.items < MOST_PENDING }
    requires room { LONGEST_BODY ≤ vec_capacity body.old }
    ensures items { body.new.items
        ≡ (pending_in body.old.items + 1) ∷ (drop 1 body.old.items ++ entry_bytes entry.now) }
    ensures fits { length (entry_bytes entry.now) ≤ LONGEST_RECORD }
    ensures entry { IsEntry entry.now }
    ensures capacity { vec_capacity body.old ≤ vec_capacity body.new }
{
    let mut bytes = [0; LONGEST_RECORD];
    let size = put_entry(entry, &mut bytes);
    body[0] += 1;
    body.extend_from_slice(&bytes[..size]).unwrap();
}
