//! The outside of a lathe on a real machine: tapes and settings that are files, a journal on a disk,
//! a report on standard output, files or pipes for the lines of the turrets, and a turret that does
//! nothing. A program of one's own takes what it needs of these, and puts its own forms of the
//! traits beside them.
//!
//! None of them tells what it holds or got, since no proof can see the system. What a call of the
//! lathe promises of forms that tell nothing holds of these, with their counts of faults. What a
//! real disk needs besides is kept by [`FileDisk`], over the calls of the system that [`Folder`] and
//! [`RawFile`] name, so that it can be tried over a folder that fails.
#![tactic(auto)]

mod chain;
mod file_disk;
mod file_shelf;
mod folder;
mod journal_file;
mod line_file;
mod log_turret;
mod next_name;
mod pieces;
mod renewal;
mod shown_file;
mod standing;
mod std_sink;
mod system_folder;

pub use file_disk::FileDisk;
pub use file_shelf::FileShelf;
pub use folder::{Folder, Identity, RawFile};
pub use journal_file::{Access, Trouble};
pub use line_file::LineFile;
pub use log_turret::LogTurret;
pub use std_sink::StdSink;
pub use system_folder::{SystemFile, SystemFolder};
