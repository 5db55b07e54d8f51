//! A disk as the journal sees it: a trait, whose contract says what each call does and what a crash
//! may leave. Who writes a disk keeps it. Disks in memory are in memory.rt and fuse.rt.

ghost use Rattle.std.specs.Prelude.{◌≡◌};
ghost use Rattle.disk_model.specs.Device.{DiskState, IsCoherent};
ghost use Rattle.disk_model.specs.Calls.{Measures, Fetches, Writes, Syncs};

use nc_number::Failed;

/// A file on a disk, of fewer than 2^62 bytes.
///
/// Content is optional: a disk that tells none is bound by no clause on content.
pub trait Disk {
    /// What the disk holds, and what a crash may leave of it.
    ghost state: { Self → DiskState };

    /// How many calls have failed. It never falls, stays where a call succeeds, and stays at the
    /// last value of u64.
    fn faults(&self) -> u64
        ensures { result ≡ (state self.now).faults };

    /// The number of bytes.
    fn len(&mut self) -> Result<u64, Failed>
        ensures { Measures (state self.old) (state self.new) result };

    /// Reads from an offset on, as many bytes as there are, up to the slice's length, and answers
    /// how many.
    fn read_at(&mut self, at: u64, into: &mut [u8]) -> Result<usize, Failed>
        ensures { Fetches at into.old into.new (state self.old) (state self.new) result };

    /// Writes over what is there, and past the end. Until a sync a crash may leave any bytes in the
    /// range and behind the old end. A write that would end at or past 2^62 fails, and a write that
    /// failed may have left any bytes there too.
    fn write_at(&mut self, at: u64, bytes: &[u8]) -> Result<(), Failed>
        ensures { Writes at bytes.now (state self.old) (state self.new) result };

    /// Puts on the disk all that was written: after an Ok, a crash leaves what a read gives.
    fn sync(&mut self) -> Result<(), Failed>
        ensures { Syncs (state self.old) (state self.new) result };

    /// The images of this moment are images since any earlier one, since now there are no others,
    /// and what a read gives is one. Where a disk that tells its content allows what it was used
    /// for, no call has failed.
    ghost coherent: { (disk : Self) → IsCoherent (state disk) };
}
