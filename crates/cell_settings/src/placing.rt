//! Which offset of offset_store a line of the settings or of edits sets.
ghost use Rattle.std.specs.Prelude.{◌≡◌};
ghost use Rattle.cell_settings.specs.Preset.{IsPreset};
ghost use Rattle.cell_settings.specs.Slots.{preset_slot};

use crate::preset::{Preset, PresetKind};
use offset_store::{Slot, ToolNumber, WorkNumber};

/// The offset of the kind and the number that a line gives.
pub fn preset_slot(preset: &Preset) -> Slot
    requires { IsPreset preset.now }
    ensures { result ≡ preset_slot preset.now.kind preset.now.number }
{
    match preset.kind {
        PresetKind::Work => Slot::Work(WorkNumber::new(preset.number)),
        PresetKind::Geometry => Slot::Geometry(ToolNumber::new(preset.number)),
        PresetKind::Wear => Slot::Wear(ToolNumber::new(preset.number)),
    }
}
