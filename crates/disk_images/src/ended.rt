//! Images that a sync ended: a crash may have left them before it. For src/disk.rt, whose disk
//! keeps them all and lists those since a time.

ghost use Rattle.std.specs.Prelude.{◌≡◌, ◌++◌, ◌∷◌, [], IfOk, OnOk};
ghost use Rattle.disk_images.specs.Among.{all_ended, left_since};

use crate::Image;
use nc_number::NoMemory;
use std::alloc::Global;
use std::marker::Model;

/// An image that a crash may have left until the disk had had so many calls.
#[derive(Drop)]
pub(crate) struct EndedImage {
    /// The image.
    bytes: Vec<u8>,
    /// How many calls the disk had had when it ended.
    until: u64,
}

impl Model for EndedImage {
    ghost use Rattle.disk_images.specs.Among.{Ended};

    ghost Value = { Ended };

    ghost view = { λ ended. record { bytes = ended.bytes.items; until = ended.until } };
}

impl EndedImage {
    /// An image of these bytes that could be left until that time.
    fn of_bytes(alloc: Global, bytes: &[u8], until: u64) -> Result<EndedImage, NoMemory>
        ensures { IfOk result (λ ended. ended ≡ record { bytes = bytes.now; until = until }) }
    {
        Ok(EndedImage {
            bytes: bytes.to_vec(alloc)?,
            until,
        })
    }
}

/// What a read gave, and the other images, ended when the disk had had so many calls.
pub(crate) fn ended_at(
    alloc: Global,
    held: &[u8],
    others: &[Image],
    until: u64,
) -> Result<Vec<EndedImage>, NoMemory>
    ensures { IfOk result (λ ended. ended.items ≡ all_ended until (held.now ∷ others.now)) }
{
    let mut ended = Vec::new(alloc);
    ended.push(EndedImage::of_bytes(alloc, held, until)?)?;
    for image in others {
        ended.push(EndedImage::of_bytes(alloc, image.as_slice(), until)?)?;
    }
    Ok(ended)
}

/// Adds the image to the list if a crash at that time, or later, may have left it.
fn add_if_left(
    alloc: Global,
    into: &mut Vec<Image>,
    ended: &EndedImage,
    since: u64,
) -> Result<(), NoMemory>
    ensures { OnOk result (into.new.items ≡ into.old.items ++ left_since since (ended.now ∷ [])) }
{
    if since < ended.until {
        into.push(Image::of_bytes(alloc, &ended.bytes)?)?;
    }
    Ok(())
}

/// Adds to the list those of the ended images that a crash at that time, or later, may have left.
pub(crate) fn add_left(
    alloc: Global,
    into: &mut Vec<Image>,
    past: &[EndedImage],
    since: u64,
) -> Result<(), NoMemory>
    ensures { OnOk result (into.new.items ≡ into.old.items ++ left_since since past.now) }
{
    for ended in past {
        add_if_left(alloc, into, ended, since)?;
    }
    Ok(())
}
