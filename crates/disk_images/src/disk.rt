//! A disk in memory that keeps every image, and what each of its calls does.

ghost use Rattle.std.specs.Prelude.{◌≡◌, ◌+◌, ◌-◌, ◌^◌, ◌<◌, ◌==◌, length, IfOk, IsOk, IsErr, is_err};
ghost use Rattle.std.specs.List.{list_any};

use crate::Image;
use crate::ended::{EndedImage, add_left, ended_at};
use crate::growing::added_by;
use crate::image::write_over;
use disk_model::{Disk, Failed, read_into};
use nc_number::NoMemory;
use std::alloc::Global;
use std::marker::Model;

/// The least length that no disk has.
const LENGTH_LIMIT: usize = 1 << 62;

/// A disk in memory that keeps every image that a crash may have left since it was made.
///
/// A crash leaves of each write since the last sync a first part: nothing, one byte, .., or all of
/// it, whatever it leaves of the others.
///
/// A call fails where its number, counted from 1, is listed, where a write would end at or past
/// 2^62, if memory runs out, and once 2^64 - 1 calls are counted. A write that fails by its number
/// writes nothing, and counts as written all the same; a call without memory does nothing, but is
/// counted. `len` and `read_at` take no memory. Each write takes as much as it makes images; it is
/// for small disks.
#[derive(Drop)]
pub struct ImagesDisk {
    /// Where the memory comes from.
    alloc: Global,
    /// What a read gives.
    bytes: Vec<u8>,
    /// What else a crash now may leave.
    others: Vec<Image>,
    /// What a crash before a sync may have left, since the disk was made.
    past: Vec<EndedImage>,
    /// The numbers of the calls that are to fail, from 1.
    failing: Vec<u64>,
    /// How many calls it has had.
    calls: u64,
    /// Where the farthest write that was asked for ends.
    reach: u128,
    /// How many calls failed.
    faults: u64,
}

impl Model for ImagesDisk {
    ghost use Rattle.disk_images.specs.Images.{Images};

    ghost Value = { Images };

    ghost use Rattle.disk_images.specs.Inside.{images_of, HasKept};

    ghost view = { images_of };

    ghost invariant = { HasKept };
}

impl ImagesDisk {
    ghost use Rattle.disk_images.specs.Among.{IsAmong};
    ghost use Rattle.disk_images.specs.Images.{fresh_images, images_since, images_state};
    ghost use Rattle.std.specs.Prelude.{◌↔◌, List, ℕ};

    /// A disk that holds these bytes, all of them settled. `failing` are the numbers of the calls
    /// that are to fail, from 1. 2^62 bytes or more are `NoMemory`.
    pub fn new(alloc: Global, bytes: Vec<u8>, failing: &[u64]) -> Result<ImagesDisk, NoMemory>
        ensures { IfOk result (λ d. d ≡ fresh_images bytes.items failing.now) }
    {
        if bytes.len() >= LENGTH_LIMIT {
            return Err(NoMemory);
        }
        Ok(ImagesDisk {
            alloc,
            bytes,
            others: Vec::new(alloc),
            past: Vec::new(alloc),
            failing: failing.to_vec(alloc)?,
            calls: 0,
            reach: 0,
            faults: 0,
        })
    }

    /// What a read gives.
    pub fn bytes(&self) -> &[u8]
        ensures { result.now ≡ self.now.bytes }
    {
        &self.bytes
    }

    /// How many calls the disk has had, which is its time.
    pub fn calls(&self) -> u64
        ensures { result ≡ self.now.calls }
    {
        self.calls
    }

    /// The images that a crash at that time, or at any later moment up to now, may have left: those
    /// that it may leave now, of which the first is what a read gives, and then those that a sync
    /// ended.
    pub fn images_since(&self, since: u64) -> Result<Vec<Image>, NoMemory>
        ensures list { IfOk result (λ images. images.items ≡ images_since self.now since) }
        ensures just { IfOk result (λ images.
            (c : List ℕ) → IsAmong images.items c ↔ (images_state self.now).image_since since c) }
    {
        self.listed_since(since)
    }

    /// The images that a crash since that time may have left, as a list.
    fn listed_since(&self, since: u64) -> Result<Vec<Image>, NoMemory>
        ensures { IfOk result (λ images. images.items ≡ images_since self.now since) }
    {
        let mut images = Vec::new(self.alloc);
        images.push(Image::of_bytes(self.alloc, &self.bytes)?)?;
        for image in &self.others {
            images.push(Image::of_bytes(self.alloc, image.as_slice())?)?;
        }
        if since < self.calls {
            add_left(self.alloc, &mut images, &self.past, since)?;
        }
        Ok(images)
    }
}

/// Whether the call of this number is to fail.
fn is_listed(failing: &[u64], number: u64) -> bool
    ensures { result ≡ list_any (λ n. n == number) failing.now }
{
    failing.iter().any(|n| *n == number)
}

impl ImagesDisk {
    ghost use Rattle.disk_model.specs.Device.{HasCause};
    ghost use Rattle.disk_images.specs.Images.{IsKept, after_look, after_request, after_settling, images_with_write, images_state, next_fails, images_after_write, refuses_write, with_fault};

    /// Whether the next call fails by its number: it is listed, or can't be counted any more.
    fn next_call_fails(&self) -> bool
        ensures fails { result ≡ next_fails self.now }
        ensures kept { IsKept self.now }
    {
        self.calls == u64::MAX || is_listed(&self.failing, self.calls + 1)
    }

    /// Counts a call that writes nothing. Error: it is one of those that fail by their number.
    fn look(&mut self) -> Result<(), Failed>
        ensures fails { is_err result ≡ next_fails self.old }
        ensures model { self.new ≡ after_look self.old }
        ensures cause { HasCause (images_state self.old) (images_state self.new) result }
        ensures kept { IsKept self.old }
    {
        let fails = self.next_call_fails();
        self.calls = self.calls.saturating_add(1);
        if fails {
            self.faults = self.faults.saturating_add(1);
            return Err(Failed);
        }
        Ok(())
    }

    /// Counts one fault more.
    fn count_fault(&mut self)
        ensures { self.new ≡ with_fault self.old }
    {
        self.faults = self.faults.saturating_add(1);
    }

    /// Ends each image but what a read gives: all that was written is on the disk. Without memory
    /// the disk stays as it is.
    fn settle(&mut self) -> Result<(), NoMemory>
        ensures ok { IsOk result → self.new ≡ after_settling self.old }
        ensures err { IsErr result → self.new ≡ self.old }
    {
        let mut ended = ended_at(self.alloc, &self.bytes, &self.others, self.calls)?;
        self.past.append(&mut ended)?;
        self.others.clear();
        Ok(())
    }

    /// Counts a write up to this end, and says whether it writes nothing, and whether the call
    /// fails by its number.
    fn count_write(&mut self, end: u128) -> (bool, bool)
        ensures refused { result.0 ≡ refuses_write self.old end }
        ensures fails { result.1 ≡ next_fails self.old }
        ensures model { self.new ≡ after_request self.old end }
        ensures kept { IsKept self.old }
    {
        let refused = self.calls == u64::MAX || (LENGTH_LIMIT as u128) <= end;
        let fails = self.next_call_fails();
        self.calls = self.calls.saturating_add(1);
        self.reach = self.reach.max(end);
        (refused, fails)
    }

    /// Adds the images with a first part of the write, which a crash may leave. Without memory the
    /// disk stays as it is.
    fn grow(&mut self, at: usize, bytes: &[u8]) -> Result<(), NoMemory>
        requires { at + length bytes.now < 2 ^ 62 }
        ensures ok { IsOk result → self.new ≡ images_with_write self.old at bytes.now }
        ensures err { IsErr result → self.new ≡ self.old }
    {
        let mut added = added_by(self.alloc, &self.bytes, &self.others, at, bytes)?;
        self.others.append(&mut added)?;
        Ok(())
    }

    /// Writes, so that a read gives the bytes, and a crash may leave a first part of them. Without
    /// memory the disk stays as it is.
    fn overwrite(&mut self, at: usize, bytes: &[u8]) -> Result<(), NoMemory>
        requires { at + length bytes.now < 2 ^ 62 }
        ensures ok { IsOk result → self.new ≡ images_after_write self.old at bytes.now }
        ensures err { IsErr result → self.new ≡ self.old }
    {
        let content = write_over(self.alloc, &self.bytes, at, bytes)?;
        self.grow(at, bytes)?;
        self.bytes = content;
        Ok(())
    }
}

impl Disk for ImagesDisk {
    ghost use Rattle.std.specs.Prelude.{◌≡◌, ◌+◌, length, is_err};
    ghost use Rattle.disk_model.specs.Calls.{Measures, Fetches, Writes, Syncs};
    ghost use Rattle.disk_images.specs.Coherent.{images_coherent};
    ghost use Rattle.disk_images.specs.Images.{after_look, after_request, after_sync, after_write, images_state, next_fails, with_fault, write_fails};
    ghost use Rattle.disk_images.specs.Outcome.{Comes};

    ghost state = { images_state };

    ghost coherent = { images_coherent };

    /// How many calls failed.
    fn faults(&self) -> u64 {
        self.faults
    }

    /// The length of the file in bytes. It fails by its number alone.
    fn len(&mut self) -> Result<u64, Failed>
        ensures fails { is_err result ≡ next_fails self.old }
        ensures model { self.new ≡ after_look self.old }
        ensures does { Measures (images_state self.old) (images_state self.new) result }
    {
        self.look()?;
        Ok(self.bytes.len() as u64)
    }

    /// Reads at a place as many bytes as fit, and says how many. It fails by its number alone.
    fn read_at(&mut self, at: u64, into: &mut [u8]) -> Result<usize, Failed>
        ensures fails { is_err result ≡ next_fails self.old }
        ensures model { self.new ≡ after_look self.old }
        ensures does { Fetches at into.old into.new (images_state self.old) (images_state self.new) result }
    {
        self.look()?;
        Ok(read_into(&self.bytes, at, into))
    }

    /// Writes bytes at a place. It fails by its number, if it would end at 2^62 or later, and
    /// without memory.
    fn write_at(&mut self, at: u64, bytes: &[u8]) -> Result<(), Failed>
        ensures model { Comes (write_fails self.old (at + length bytes.now)) (after_write self.old at bytes.now)
            (with_fault (after_request self.old (at + length bytes.now))) self.new (is_err result) }
        ensures does { Writes at bytes.now (images_state self.old) (images_state self.new) result }
    {
        let (refused, fails) = self.count_write(at as u128 + bytes.len() as u128);
        if refused {
            self.count_fault();
            return Err(Failed);
        }
        if fails {
            let _ = self.grow(at as usize, bytes);
            self.count_fault();
            return Err(Failed);
        }
        if self.overwrite(at as usize, bytes).is_err() {
            self.count_fault();
            return Err(Failed);
        }
        Ok(())
    }

    /// Puts all that was written on the disk. It fails by its number and without memory, and then
    /// ends no image.
    fn sync(&mut self) -> Result<(), Failed>
        ensures model { Comes (next_fails self.old) (after_sync self.old)
            (with_fault (after_look self.old)) self.new (is_err result) }
        ensures does { Syncs (images_state self.old) (images_state self.new) result }
    {
        self.look()?;
        if self.settle().is_err() {
            self.count_fault();
            return Err(Failed);
        }
        Ok(())
    }
}
