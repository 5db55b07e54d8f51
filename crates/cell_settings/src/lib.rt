//! The settings of the cell: the waiting codes, the system of G codes, the shared variables, the
//! skip switches, the opening and reference positions, the offsets that the paths begin with, and
//! the size of the journal.
//!
//! To the crates above it promises that [`Settings`] are what the text says, by the rules of the
//! settings file, that they keep the ranges of those rules, and that a refusal names the first line
//! that the rules don't allow.
#![tactic(auto)]

mod entry;
mod named;
mod placing;
mod preset;
mod preset_line;
mod reading;
mod settings;

pub use placing::preset_slot;
pub use preset::{Preset, PresetKind, PresetList};
pub use preset_line::read_preset;
pub use reading::{SettingFault, read_settings};
pub use settings::Settings;
