//! The lines of the settings that give offsets; a line of edits has the same form. named.rt reads
//! them here. The lines of an operator's edits are read by it too: a change here changes both texts.
ghost use Rattle.std.specs.Prelude.{◌≡◌, ◌≢◌, ◌≤◌, IfSome};
ghost use Rattle.field_lines.specs.Field.{texts};
ghost use Rattle.cell_settings.specs.Preset.{IsPreset};
ghost use Rattle.cell_settings.specs.PresetLine.{work_number, work_of, tool_of, preset_of};

use crate::preset::{Preset, PresetKind};
use field_lines::{number_in, read_path, read_point};
use nc_number::TOOL_OFFSETS;

/// The work offset that a field names: 0 for the external one, 1 to 6 for G54 to G59, which are
/// written as 54 to 59; none for any other text.
#[tactic(auto, unfolding(crate::specs::PresetLine::work_number))]
fn work_number(text: &[u8]) -> Option<u8>
    ensures value { result ≡ work_number text.now }
    ensures range { IfSome result (λ n. n ≤ 6) }
{
    if text == b"0".as_slice() {
        return Some(0);
    }
    let n = number_in(54, 59, text)?;
    Some((n - 53) as u8)
}

/// The work offset of a path that the values of `work` set, if they are allowed.
#[tactic(auto, unfolding(crate::specs::PresetLine::work_of))]
fn work(values: &[&[u8]]) -> Option<Preset>
    ensures value { result ≡ work_of (texts values.now) }
    ensures allowed { IfSome result IsPreset }
{
    match values {
        [path, number, x, z] => {
            let path = read_path(path)?;
            let number = work_number(number)?;
            let to = read_point(x, z)?;
            Some(Preset {
                path,
                kind: PresetKind::Work,
                number,
                to,
            })
        }
        _ => None,
    }
}

/// The geometry or wear offset of a path that the values of `tool` or `wear` set, if they are
/// allowed.
#[tactic(auto, unfolding(crate::specs::PresetLine::tool_of))]
fn tool(kind: PresetKind, values: &[&[u8]]) -> Option<Preset>
    requires { kind ≢ PresetKind.Work }
    ensures value { result ≡ tool_of kind (texts values.now) }
    ensures allowed { IfSome result IsPreset }
{
    match values {
        [path, number, x, z] => {
            let path = read_path(path)?;
            let number = number_in(1, u32::from(TOOL_OFFSETS), number)?;
            let to = read_point(x, z)?;
            Some(Preset {
                path,
                kind,
                number: number as u8,
                to,
            })
        }
        _ => None,
    }
}

/// The offset that a name and its values set: `work p n X.. Z..`, `tool p n X.. Z..` or `wear p n
/// X.. Z..`. The number of a work offset is 0 for the external one, or 54 to 59. None if they are
/// none of these, or out of their range.
#[tactic(auto, unfolding(crate::specs::PresetLine::preset_of))]
pub fn read_preset(name: &[u8], values: &[&[u8]]) -> Option<Preset>
    ensures value { result ≡ preset_of name.now (texts values.now) }
    ensures allowed { IfSome result IsPreset }
{
    if name == b"work".as_slice() {
        work(values)
    } else if name == b"tool".as_slice() {
        tool(PresetKind::Geometry, values)
    } else if name == b"wear".as_slice() {
        tool(PresetKind::Wear, values)
    } else {
        None
    }
}
