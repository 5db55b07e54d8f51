//! An image: the bytes of the whole file that a crash may leave. The disk of src/disk.rt lists
//! images.

ghost use Rattle.std.specs.Prelude.{◌≡◌, ◌+◌, ◌-◌, ◌^◌, ◌≤◌, ◌<◌, ◌++◌, List, ℕ, length, take, drop, replicate, IfOk};
ghost use Rattle.disk_model.specs.Device.{written_over};

use nc_number::NoMemory;
use std::alloc::Global;
use std::marker::Model;

/// What a crash may leave: the bytes of the whole file.
#[derive(Drop)]
pub struct Image {
    /// The bytes, from the first on.
    bytes: Vec<u8>,
}

impl Model for Image {
    ghost Value = { List ℕ };

    ghost view = { λ image. image.bytes.items };
}

impl Image {
    /// The bytes of the file, from the first on.
    pub fn as_slice(&self) -> &[u8]
        ensures { result.now ≡ self.now }
    {
        &self.bytes
    }

    /// An image of these bytes.
    pub(crate) fn of_bytes(alloc: Global, bytes: &[u8]) -> Result<Image, NoMemory>
        ensures { IfOk result (λ image. image ≡ bytes.now) }
    {
        Ok(Image {
            bytes: bytes.to_vec(alloc)?,
        })
    }

    /// The image that a write makes of old bytes: these over them, and zeros between where they
    /// begin after the end.
    pub(crate) fn of_write(
        alloc: Global,
        old: &[u8],
        at: usize,
        bytes: &[u8],
    ) -> Result<Image, NoMemory>
        requires { at + length bytes.now < 2 ^ 62 }
        ensures { IfOk result (λ image. image ≡ written_over old.now at bytes.now) }
    {
        Ok(Image {
            bytes: write_over(alloc, old, at, bytes)?,
        })
    }
}

/// The old bytes with these over them, and zeros between where they begin after the end.
pub(crate) fn write_over(
    alloc: Global,
    old: &[u8],
    at: usize,
    bytes: &[u8],
) -> Result<Vec<u8>, NoMemory>
    requires { at + length bytes.now < 2 ^ 62 }
    ensures { IfOk result (λ new. new.items ≡ written_over old.now at bytes.now) }
{
    let mut new = filled_up(alloc, old, at + bytes.len())?;
    put_inside(&mut new, at, bytes);
    Ok(new)
}

/// The bytes, with zeros up to the end.
fn filled_up(alloc: Global, old: &[u8], end: usize) -> Result<Vec<u8>, NoMemory>
    ensures { IfOk result (λ new. new.items ≡ old.now ++ replicate (end - length old.now) 0) }
{
    let mut new = old.to_vec(alloc)?;
    if new.len() < end {
        new.resize(end, 0)?;
    }
    Ok(new)
}

/// Puts bytes over others, of which there are as many.
fn put_inside(content: &mut [u8], at: usize, bytes: &[u8])
    requires { at + length bytes.now ≤ length content.old }
    ensures { content.new ≡ take at content.old ++ bytes.now ++ drop (at + length bytes.now) content.old }
{
    content[at..at + bytes.len()].copy_from_slice(bytes);
}
