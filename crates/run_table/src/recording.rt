//! The history of a run, and the journal that holds a prefix of it.
//! For this crate alone: stepping.rt and table.rt use it.
ghost use Rattle.std.specs.Prelude.{◌≡◌, ◌+◌, ◌≤◌, [], ◌∷◌, length, None, IsTrue, IsErr, OnOk};
ghost use Rattle.disk_model.specs.Device.{Rose};
ghost use Rattle.nc_number.specs.declared.limits.TheConstants.{MOST_PENDING};
ghost use Rattle.run_records.specs.Entries.{edit_of};
ghost use Rattle.run_journal.specs.Kept.{IsFresh};
ghost use Rattle.run_table.specs.Recording.{MayNote, IsNoted, Records, IsFlush};

use disk_model::Disk;
use gate_file::DiskFault;
use nc_number::NoMemory;
use run_journal::{Journal, a_held_journal_leaves_its_records};
use run_records::{Entry, EntryList};
use std::marker::Model;

/// The records of a run, and the journal, which has written the first of them. The others pend, at
/// most as many as one batch may have.
#[derive(Drop)]
pub(crate) struct Recording<D: Disk> {
    /// All records.
    history: EntryList,
    /// The journal, with the batch of those that pend.
    journal: Journal<D>,
    /// How many of them are on the disk.
    flushed: usize,
}

impl<D: Disk> Model for Recording<D> {
    ghost use Rattle.run_table.specs.Recording.{RecordingView, IsGathered};

    ghost Value = { RecordingView D };

    ghost view = { λ r. record {
      history = r.history.items;
      room = r.history.room;
      flushed = r.flushed;
      log = r.journal;
    } };

    ghost invariant = { λ r. IsGathered (record {
      history = r.history.items;
      room = r.history.room;
      flushed = r.flushed;
      log = r.journal;
    }) };
}

impl<D: Disk> Recording<D> {
    /// A recording of these records, all of which the journal has written.
    pub(crate) fn over(history: EntryList, journal: Journal<D>) -> Recording<D>
        requires { IsFresh (length history.items) journal }
        ensures { result ≡ record {
          history = history.items;
          room = history.room;
          flushed = length history.items;
          log = journal;
        } }
    {
        let flushed = history.len();
        Recording {
            history,
            journal,
            flushed,
        }
    }

    /// Makes room for so many records more. The error is that memory ran out.
    pub(crate) fn reserve(&mut self, n: usize) -> Result<(), NoMemory>
        ensures history { self.new.history ≡ self.old.history }
        ensures flushed { self.new.flushed ≡ self.old.flushed }
        ensures log { self.new.log ≡ self.old.log }
        ensures room { OnOk result (length self.new.history + n ≤ self.new.room) }
        ensures no_less { self.old.room ≤ self.new.room }
    {
        self.history.reserve(n)
    }

    /// How many records there are.
    pub(crate) fn len(&self) -> usize
        ensures count { result ≡ length self.now.history }
        ensures within { self.now.flushed ≤ length self.now.history }
    {
        self.history.len()
    }

    /// How many records pend.
    pub(crate) fn pending(&self) -> usize
        ensures count { self.now.flushed + result ≡ length self.now.history }
        ensures few { result ≤ MOST_PENDING }
    {
        self.history.len() - self.flushed
    }

    /// One record more, which is of a step and pends. It takes no memory.
    pub(crate) fn note(&mut self, entry: Entry)
        requires may { MayNote self.old }
        requires step { edit_of entry.kind ≡ None }
        ensures { IsNoted D.state (entry ∷ []) self.old self.new }
    {
        self.journal.add(&entry).unwrap();
        self.history.push(entry);
    }

    /// Writes all records that pend, as one batch; if none pends it makes no call of the disk. It
    /// takes no memory.
    pub(crate) fn flush(&mut self) -> Result<(), DiskFault>
        requires { IsTrue self.old.log.file.live }
        ensures flushed { IsFlush self.old self.new result }
        ensures records { Records D.state [] self.old self.new }
        ensures cause { IsErr result
            → Rose (D.state self.old.log.file.disk).faults (D.state self.new.log.file.disk).faults }
    {
        a_held_journal_leaves_its_records::<D>();
        self.journal.flush()?;
        self.flushed = self.history.len();
        Ok(())
    }

    /// The records, and the disk. Records that pend are not written any more.
    pub(crate) fn into_parts(self) -> (EntryList, D)
        ensures entries { result.0.items ≡ self.history }
        ensures disk { result.1 ≡ self.log.file.disk }
    {
        let Recording {
            history,
            journal,
            flushed: _,
        } = self;
        (history, journal.into_disk())
    }
}
