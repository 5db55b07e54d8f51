//! A disk that fails every call after a number of calls, as if the machine had stopped there. Only
//! tests use it: they stop a run between any two calls.

ghost use Rattle.std.specs.Prelude.{◌≡◌, ◌+◌, ◌-◌, ◌^◌, ◌<◌, ◌==◌, length, is_err, not, IsTrue};
ghost use Rattle.disk_model.specs.Calls.{Measures, Fetches, Writes, Syncs};

use crate::{Disk, Failed, MemoryDisk};
use std::marker::Model;

/// A disk that passes so many calls on to a disk in memory, and then fails every call, as after a
/// stop: none of them reaches the disk in memory.
#[derive(Drop)]
pub struct FuseDisk {
    /// The disk that gets the calls.
    inner: MemoryDisk,
    /// How many calls it will still pass on.
    passes: u64,
    /// How many calls it has failed without passing them on.
    burnt: u64,
    /// The greatest end of a write that it failed.
    reach: u128,
}

impl Model for FuseDisk {
    ghost use Rattle.disk_model.specs.Fuse.{Fuse};

    ghost Value = { Fuse };

    ghost use Rattle.disk_model.specs.FuseInside.{fuse_of, IsBurntOut};

    ghost view = { fuse_of };

    ghost invariant = { IsBurntOut };
}

impl FuseDisk {
    ghost use Rattle.disk_model.specs.Fuse.{Fuse, after_stop};

    /// The disk with a fuse that burns out after so many passed calls.
    pub fn new(inner: MemoryDisk, passes: u64) -> FuseDisk
        ensures { result ≡ record { inner = inner; passes = passes; burnt = 0; reach = 0 } }
    {
        FuseDisk {
            inner,
            passes,
            burnt: 0,
            reach: 0,
        }
    }

    /// The disk without its fuse.
    pub fn into_inner(self) -> MemoryDisk
        ensures { result ≡ self.inner }
    {
        self.inner
    }

    /// Takes a call, and says whether it is passed on.
    fn passes_on(&mut self) -> bool
        ensures passes { result ≡ not (self.old.passes == 0) }
        ensures passed { IsTrue result → self.new ≡ record self.old { passes = self.old.passes - 1 } }
        ensures whole { IsTrue result → self.old.burnt ≡ 0 }
        ensures stopped { IsTrue (not result) → self.new ≡ after_stop self.old }
        ensures fits { self.old.burnt < 2 ^ 64 }
    {
        if self.passes == 0 {
            self.burnt = self.burnt.saturating_add(1);
            return false;
        }
        self.passes -= 1;
        true
    }
}

impl Disk for FuseDisk {
    ghost use Rattle.disk_model.specs.Fuse.{fuse_state, fuse_coherent, fuse_fails, fuse_write_fails, fuse_after_look, fuse_after_sync, fuse_after_write};

    ghost state = { fuse_state };

    ghost coherent = { fuse_coherent };

    /// How many calls failed: those of the disk below, and those that the fuse failed.
    fn faults(&self) -> u64 {
        self.inner.faults().saturating_add(self.burnt)
    }

    /// The length of the disk below, or an error once burnt out.
    fn len(&mut self) -> Result<u64, Failed>
        ensures fails { is_err result ≡ fuse_fails self.old }
        ensures model { self.new ≡ fuse_after_look self.old }
        ensures does { Measures (fuse_state self.old) (fuse_state self.new) result }
    {
        if !self.passes_on() {
            return Err(Failed);
        }
        self.inner.len()
    }

    /// A read of the disk below, or an error once burnt out.
    fn read_at(&mut self, at: u64, into: &mut [u8]) -> Result<usize, Failed>
        ensures fails { is_err result ≡ fuse_fails self.old }
        ensures model { self.new ≡ fuse_after_look self.old }
        ensures does { Fetches at into.old into.new (fuse_state self.old) (fuse_state self.new) result }
    {
        if !self.passes_on() {
            return Err(Failed);
        }
        self.inner.read_at(at, into)
    }

    /// A write to the disk below, or an error once burnt out; then the end of the write is noted.
    fn write_at(&mut self, at: u64, bytes: &[u8]) -> Result<(), Failed>
        ensures fails { is_err result ≡ fuse_write_fails self.old (at + length bytes.now) }
        ensures model { self.new ≡ fuse_after_write self.old at bytes.now }
        ensures does { Writes at bytes.now (fuse_state self.old) (fuse_state self.new) result }
    {
        if !self.passes_on() {
            self.reach = self.reach.max(at as u128 + bytes.len() as u128);
            return Err(Failed);
        }
        self.inner.write_at(at, bytes)
    }

    /// A sync of the disk below, or an error once burnt out.
    fn sync(&mut self) -> Result<(), Failed>
        ensures fails { is_err result ≡ fuse_fails self.old }
        ensures model { self.new ≡ fuse_after_sync self.old }
        ensures does { Syncs (fuse_state self.old) (fuse_state self.new) result }
    {
        if !self.passes_on() {
            return Err(Failed);
        }
        self.inner.sync()
    }
}
