//! A journal: records that are gathered in batches, and written as bodies of a file of gates.

ghost use Rattle.std.specs.Prelude.{◌≡◌, ◌↔◌, ◌+◌, ◌≤◌, ◌<◌, ◌++◌, [], ◌∷◌, List, ℕ, length, IsSome, IsTrue, IsErr, OnOk, OnErr, IfOk};
ghost use Rattle.disk_model.specs.Device.{HasCause};
ghost use Rattle.disk_model.specs.Moments.{LeavesOnly, Uses};
ghost use Rattle.nc_number.specs.declared.limits.TheConstants.{MOST_PENDING, MOST_RECORDS};
ghost use Rattle.gate_file.specs.Creation.{without_disk};
ghost use Rattle.run_records.specs.declared.header.Header.{Header};
ghost use Rattle.run_records.specs.declared.version.Version.TheVariants.{One, Two};
ghost use Rattle.run_records.specs.Entries.{Entry, edit_of};
ghost use Rattle.run_records.specs.Headers.{header_bytes, IsShort};
ghost use Rattle.run_journal.specs.Beginning.{BeginsRun, disk_begun};
ghost use Rattle.run_journal.specs.Kept.{Log, pending_in, IsFresh, IsFlushed, IsRaised};
ghost use Rattle.run_journal.specs.Stands.{Pends, Stands, Holds, StandsEither};

use crate::JournalFull;
use crate::batch::Batch;
use disk_model::Disk;
use gate_file::{DiskFault, GateFault, GateFile};
use nc_number::MOST_RECORDS;
use run_records::{Entry, Header, Version, put_header};
use std::alloc::Global;
use std::marker::Model;

/// The body that raises a journal to version 2 (`raising_mark` of specs/Batches.antt; `is_mark` in
/// reading.rt finds it). It is no batch, since a batch counts 64 records at most.
pub(crate) const RAISING_MARK: [u8; 3] = [0xFF, 0, 2];

/// A journal over a file of gates, with the records that are to be written next, at most 64. It may
/// be written as long as it is live.
#[derive(Drop)]
pub struct Journal<D: Disk> {
    /// The file of gates on the disk.
    file: GateFile<D>,
    /// The records that are to be written next.
    batch: Batch,
    /// How many records there are, those to be written counted.
    count: usize,
    /// The version by now.
    version: Version,
}

impl<D: Disk> Model for Journal<D> {
    ghost use Rattle.run_journal.specs.Kept.{Log};

    ghost Value = { Log D };

    ghost view = { λ j. record { file = j.file; batch = j.batch; count = j.count; version = j.version } };
}

impl<D: Disk> Journal<D> {
    /// Begins a journal on the disk, with this header and no record. It begins with a sync, and
    /// writes over no run: where the first gate is open and the file has more than one byte nothing
    /// is written, and the answer is `RunThere`, or `DiskFault` where the disk failed before that
    /// was seen. `NoRun` and `Cut` never come. An error gives the disk back, and unless it is
    /// `DiskFault` nothing was written.
    pub fn begin(alloc: Global, disk: D, header: &Header) -> Result<Journal<D>, (D, GateFault)>
        requires { IsShort header.now }
        ensures begun { BeginsRun header.now (D.state disk) (D.state (disk_begun result)) (without_disk result) }
        ensures fresh { IfOk result (IsFresh 0) }
        ensures version { IfOk result (λ journal. journal.version ≡ header.now.version) }
        ensures end { IfOk result (λ journal. journal.file.end ≡ 5 + length (header_bytes header.now)) }
    {
        let Ok(batch) = Batch::empty(alloc) else {
            return Err((disk, GateFault::NoMemory));
        };
        let Ok(body) = put_header(alloc, header) else {
            return Err((disk, GateFault::NoMemory));
        };
        match GateFile::create(alloc, disk, &body) {
            Ok(file) => Ok(Journal::over(file, batch, 0, header.version)),
            Err(refused) => Err(refused),
        }
    }

    /// A journal of so many records over its file.
    pub(crate) fn over(
        file: GateFile<D>,
        batch: Batch,
        count: usize,
        version: Version,
    ) -> Journal<D>
        ensures { result ≡ record { file = file; batch = batch; count = count; version = version } }
    {
        Journal {
            file,
            batch,
            count,
            version,
        }
    }

    /// How many records are to be written.
    pub fn pending(&self) -> usize
        ensures count { result ≡ pending_in self.now.batch }
        ensures few { result ≤ MOST_PENDING }
    {
        self.batch.count()
    }

    /// How many records it has, those to be written counted.
    pub fn count(&self) -> usize
        ensures { result ≡ self.now.count }
    {
        self.count
    }

    /// The version of its header, or version 2 where it was raised.
    pub fn version(&self) -> Version
        ensures { result ≡ self.now.version }
    {
        self.version
    }

    /// Whether it may be written.
    pub fn is_live(&self) -> bool
        ensures { result ≡ self.now.file.live }
    {
        self.file.is_live()
    }

    /// One record more is to be written, an edit only in version 2. It takes no memory.
    /// `JournalFull` comes exactly where the journal has 4,000,000 records or more, those to be
    /// written counted, and then nothing is changed.
    pub fn add(&mut self, entry: &Entry) -> Result<(), JournalFull>
        requires live { IsTrue self.old.file.live }
        requires few { pending_in self.old.batch < MOST_PENDING }
        requires raised { IsSome (edit_of entry.now.kind) → self.old.version ≡ Two }
        ensures full { IsErr result ↔ (MOST_RECORDS ≤ self.old.count) }
        ensures stays { OnErr result (self.new ≡ self.old) }
        ensures added { OnOk result ((pending : List Entry) → Pends self.old.version pending self.old.batch
            → Pends self.new.version (pending ++ entry.now ∷ []) self.new.batch) }
        ensures count { OnOk result (self.new.count ≡ self.old.count + 1) }
        ensures file { self.new.file ≡ self.old.file }
        ensures version { self.new.version ≡ self.old.version }
    {
        if self.count >= MOST_RECORDS as usize {
            return Err(JournalFull);
        }
        self.batch.put(entry);
        self.count += 1;
        Ok(())
    }

    /// Writes all records that are to be written, as one batch; where there are none it makes no
    /// call of the disk. It takes no memory. After a fault the journal is no longer live, and has
    /// to be opened again.
    pub fn flush(&mut self) -> Result<(), DiskFault>
        requires { IsTrue self.old.file.live }
        // After an Ok the disk holds the records that were to be written after those that it held,
        // whichever those were.
        ensures acknowledged { OnOk result ((header : Header) (entries pending : List Entry)
            → Pends self.old.version pending self.old.batch
            → Holds header self.old.version entries (D.state self.old.file.disk) self.old.file.end
            → Holds header self.new.version (entries ++ pending) (D.state self.new.file.disk) self.new.file.end) }
        // A crash at any moment of the call leaves the records that it held, or those and all that
        // were to be written.
        ensures any_moment { (header : Header) (entries pending : List Entry)
            → Pends self.old.version pending self.old.batch
            → Holds header self.old.version entries (D.state self.old.file.disk) self.old.file.end
            → LeavesOnly (StandsEither header entries pending) (D.state self.old.file.disk)
            (D.state self.new.file.disk) }
        ensures flushed { IsFlushed self.old self.new result }
        ensures idle { pending_in self.old.batch ≡ 0 → self.new ≡ self.old }
        ensures cause { HasCause (D.state self.old.file.disk) (D.state self.new.file.disk) result }
        ensures uses { Uses 4 (self.old.file.end + length self.old.batch + 6) (D.state self.old.file.disk)
            (D.state self.new.file.disk) }
    {
        if self.batch.count() == 0 {
            return Ok(());
        }
        self.file.append(self.batch.as_slice())?;
        self.batch.clear();
        Ok(())
    }

    /// Raises a journal of version 1 to version 2, in which edits may stand: it writes the raising
    /// mark. It takes no memory. What the disk holds stands for the same records, before and after.
    /// After a fault the journal is no longer live, and has to be opened again.
    pub fn raise(&mut self) -> Result<(), DiskFault>
        requires live { IsTrue self.old.file.live }
        requires version { self.old.version ≡ One }
        requires idle { pending_in self.old.batch ≡ 0 }
        ensures acknowledged { OnOk result ((header : Header) (entries : List Entry)
            → Holds header One entries (D.state self.old.file.disk) self.old.file.end
            → Holds header Two entries (D.state self.new.file.disk) self.new.file.end) }
        // A crash at any moment of the call leaves the records that it held.
        ensures any_moment { (header : Header) (entries : List Entry)
            → Holds header One entries (D.state self.old.file.disk) self.old.file.end
            → LeavesOnly (Stands header entries) (D.state self.old.file.disk) (D.state self.new.file.disk) }
        ensures raised { IsRaised self.old self.new result }
        ensures cause { HasCause (D.state self.old.file.disk) (D.state self.new.file.disk) result }
        ensures uses { Uses 4 (self.old.file.end + 9) (D.state self.old.file.disk) (D.state self.new.file.disk) }
    {
        self.file.append(&RAISING_MARK)?;
        self.version = Version::Two;
        Ok(())
    }

    /// Gives the disk back. Records that were to be written are dropped.
    pub fn into_disk(self) -> D
        ensures { result ≡ self.file.disk }
    {
        let Journal {
            file,
            batch: _,
            count: _,
            version: _,
        } = self;
        file.into_disk()
    }
}
