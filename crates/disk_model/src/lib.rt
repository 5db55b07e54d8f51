//! A disk under a journal: what its calls do, and what a crash may leave of it.
//!
//! The trait [`Disk`] says, by facts that contracts alone see, what a read gives, which images a
//! crash now may leave, and which images a crash at some moment since a given time may have left,
//! inside a call too. The layer above leans on this: between two syncs every written range, and all
//! behind the old end, may hold any bytes; every other byte stays; after a sync that answered Ok a
//! crash leaves what a read gives. [`MemoryDisk`] and [`FuseDisk`] are disks for tests, proved
//! against the trait.
#![tactic(auto)]

mod device;
mod fuse;
mod laws;
mod memory;
mod stretch;

pub use device::Disk;
pub use fuse::FuseDisk;
pub use memory::{Crash, MemoryDisk, read_into};
pub use nc_number::Failed;
pub use stretch::Stretch;

// For users of the library: laws that no crate of the program takes.
pub use laws::{a_new_disk_allows_its_room, images_are_torn_writes};
