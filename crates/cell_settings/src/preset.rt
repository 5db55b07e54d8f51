//! The offsets that the paths begin with, as a list with one at most for each path, kind and number.
ghost use Rattle.std.specs.Prelude.{◌≡◌, List, [], All, OnOk};
ghost use Rattle.cell_settings.specs.Preset.{with_preset, without_place, is_same_place, IsPreset};

use nc_number::{Path, Point};
use std::alloc::{AllocFailed, Global};
use std::marker::Model;

/// The kinds of opening offsets.
#[derive(Clone, Copy, Debug, PartialEq, Eq)]
pub enum PresetKind {
    /// A work offset: 0 is the external one, 1 to 6 are those of G54 to G59.
    Work,
    /// A tool's geometry offset, 1 to 64.
    Geometry,
    /// A tool's wear offset, 1 to 64.
    Wear,
}

/// An offset that a path begins with.
#[derive(Clone, Copy, Debug, PartialEq, Eq)]
pub struct Preset {
    /// The path that has it.
    pub path: Path,
    /// A work offset, or the geometry or the wear of a tool.
    pub kind: PresetKind,
    /// The number of the offset among those of its kind.
    pub number: u8,
    /// The offset, in 0.001 mm.
    pub to: Point,
}

/// The opening offsets, at most one for each path, kind and number.
#[derive(Debug, Drop)]
pub struct PresetList {
    /// The offsets, in the order in which they were last set.
    items: Vec<Preset>,
}

impl Model for PresetList {
    ghost use Rattle.std.specs.Prelude.{List};
    ghost use Rattle.cell_settings.specs.declared.preset.Preset.{Preset};

    ghost Value = { List Preset };

    ghost view = { λ l. l.items.items };
}

/// Whether both set the same offset of the same path.
fn is_same_place(a: &Preset, b: &Preset) -> bool
    ensures { result ≡ is_same_place a.now b.now }
{
    a.path == b.path && a.kind == b.kind && a.number == b.number
}

impl PresetList {
    /// A list without offsets.
    pub(crate) fn empty(alloc: Global) -> Self
        ensures { result ≡ [] }
    {
        PresetList {
            items: Vec::new(alloc),
        }
    }

    /// The offsets, in the order in which they were last set.
    pub fn as_slice(&self) -> &[Preset]
        ensures { result.now ≡ self.now }
    {
        self.items.as_slice()
    }

    /// Sets an offset, instead of one for the same path, kind and number. The error is that memory
    /// ran out; then the one for the same path, kind and number is left out all the same.
    pub(crate) fn set(&mut self, preset: Preset) -> Result<(), AllocFailed<Preset>>
        ensures ok { OnOk result (self.new ≡ with_preset preset self.old) }
        ensures kept { All IsPreset self.old → IsPreset preset → All IsPreset self.new }
    {
        leave_out(&mut self.items, preset);
        self.items.push(preset)?;
        Ok(())
    }
}

/// Leaves out the offset for the same path, kind and number.
fn leave_out(items: &mut Vec<Preset>, place: Preset)
    ensures { items.new.items ≡ without_place place items.old.items }
{
    items.retain(|other| !is_same_place(other, &place));
}
