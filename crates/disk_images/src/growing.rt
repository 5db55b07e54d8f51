//! What a write adds to the images: a first part of it may be left over each of them. For
//! src/disk.rt.

ghost use Rattle.std.specs.Prelude.{◌≡◌, ◌+◌, ◌^◌, ◌<◌, ◌++◌, ◌∷◌, length, IfOk, OnOk};
ghost use Rattle.std.specs.List.{flat_map};
ghost use Rattle.disk_images.specs.Images.{torn_images};

use crate::Image;
use nc_number::NoMemory;
use std::alloc::Global;

/// Adds the image with the first byte of the write over it, with the first two, and so on.
fn add_torn(
    alloc: Global,
    into: &mut Vec<Image>,
    image: &[u8],
    at: usize,
    bytes: &[u8],
) -> Result<(), NoMemory>
    requires { at + length bytes.now < 2 ^ 62 }
    ensures { OnOk result (into.new.items ≡ into.old.items ++ torn_images at bytes.now image.now) }
{
    for count in 0..bytes.len() {
        let (first, _) = bytes.split_at(count + 1);
        into.push(Image::of_write(alloc, image, at, first)?)?;
    }
    Ok(())
}

/// The images that a write adds: what a read gave before it, and each image with a first part of
/// the write over it.
pub(crate) fn added_by(
    alloc: Global,
    held: &[u8],
    others: &[Image],
    at: usize,
    bytes: &[u8],
) -> Result<Vec<Image>, NoMemory>
    requires { at + length bytes.now < 2 ^ 62 }
    ensures { IfOk result (λ added.
        added.items ≡ held.now ∷ flat_map (torn_images at bytes.now) (held.now ∷ others.now)) }
{
    let mut added = Vec::new(alloc);
    added.push(Image::of_bytes(alloc, held)?)?;
    add_torn(alloc, &mut added, held, at, bytes)?;
    for image in others {
        add_torn(alloc, &mut added, image.as_slice(), at, bytes)?;
    }
    Ok(added)
}
