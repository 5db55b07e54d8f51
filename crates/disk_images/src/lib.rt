//! A disk in memory that keeps every image: for tests of what a crash at any moment may leave, over
//! any number of syncs.
//!
//! [`ImagesDisk`] is proved against the trait `Disk` of disk_model. The disks there forget what a
//! crash before the last sync but one may have left; this one forgets nothing, and lists it. A
//! crash leaves of each write since the last sync a first part: nothing, one byte, .., or all of
//! it.
#![tactic(auto)]

mod disk;
mod ended;
mod growing;
mod image;

pub use disk::ImagesDisk;
pub use image::Image;
