//! What the fields of a line of edits say. Lines and their fields are cut in field_lines, and a
//! line of an offset is read by cell_settings, as in the settings. For reading.rt of this crate
//! alone.
ghost use Rattle.std.specs.Prelude.{◌≡◌, IfOk};
ghost use Rattle.field_lines.specs.Field.{texts};
ghost use Rattle.cell_settings.specs.Preset.{IsPreset};
ghost use Rattle.edit_texts.specs.Lines.{edit_of_preset, number_of, value_of, var_of, variable_of, edit_of, fields_say, line_says};

use crate::edit_list::PathEdit;
use crate::entry::Entry;
use cell_settings::{Preset, preset_slot, read_preset};
use common_vars::CommonNumber;
use field_lines::{line_fields, number_in, read_path};
use nc_number::{Value, Var, is_literal, parse_word};
use offset_store::Offset;
use run_records::Edit;
use std::alloc::{AllocError, Global};

/// The edit that sets the offset of a line.
fn offset(preset: &Preset) -> PathEdit
    requires { IsPreset preset.now }
    ensures { result ≡ edit_of_preset preset.now }
{
    PathEdit {
        path: preset.path,
        edit: Edit::Offset {
            slot: preset_slot(preset),
            to: Offset::new(preset.to),
        },
    }
}

/// The common variable whose number a field writes, if it is one.
#[tactic(auto, unfolding(crate::specs::Lines::number_of))]
fn number(text: &[u8]) -> Option<CommonNumber>
    ensures { result ≡ number_of text.now }
{
    CommonNumber::of(number_in(100, 999, text)?)
}

/// The number that a literal writes, in whole units; none if the field is no literal or has too
/// many digits.
#[tactic(auto, unfolding(crate::specs::Lines::value_of))]
fn value(text: &[u8]) -> Option<Value>
    ensures { result ≡ value_of text.now }
{
    if !is_literal(text) {
        return None;
    }
    match parse_word(text) {
        Ok(literal) => Some(literal.value()),
        Err(_) => None,
    }
}

/// What a variable is to be: vacant, or the number that a literal writes; none for any other text.
#[tactic(auto, unfolding(crate::specs::Lines::var_of))]
fn content(text: &[u8]) -> Option<Var>
    ensures { result ≡ var_of text.now }
{
    if text == b"vacant".as_slice() {
        return Some(Var::Vacant);
    }
    Some(Var::Is(value(text)?))
}

/// The edit of a variable that the values of `var` say: its path, its number and what it is to be.
/// None if they are not allowed.
#[tactic(auto, unfolding(crate::specs::Lines::variable_of))]
fn variable(values: &[&[u8]]) -> Option<PathEdit>
    ensures { result ≡ variable_of (texts values.now) }
{
    match values {
        [path, number_text, content_text] => {
            let path = read_path(path)?;
            let variable = number(number_text)?;
            let to = content(content_text)?;
            Some(PathEdit {
                path,
                edit: Edit::Common { variable, to },
            })
        }
        _ => None,
    }
}

/// The edit that a name and its values say, if they are allowed.
#[tactic(auto, unfolding(crate::specs::Lines::edit_of))]
fn edit(name: &[u8], values: &[&[u8]]) -> Option<PathEdit>
    ensures { result ≡ edit_of name.now (texts values.now) }
{
    if name == b"var".as_slice() {
        return variable(values);
    }
    let preset = read_preset(name, values)?;
    Some(offset(&preset))
}

/// What the fields of a line say, if they are allowed. No field says nothing.
#[tactic(auto, unfolding(crate::specs::Lines::fields_say))]
fn read_fields(fields: &[&[u8]]) -> Option<Entry>
    ensures { result ≡ fields_say (texts fields.now) }
{
    match fields {
        [] => Some(Entry::Nothing),
        [name, values @ ..] => Some(Entry::Edit(edit(name, values)?)),
    }
}

/// What a line says, if it is allowed. The error is that memory ran out.
#[tactic(auto, unfolding(crate::specs::Lines::line_says))]
pub(crate) fn read_line(alloc: Global, line: &[u8]) -> Result<Option<Entry>, AllocError>
    ensures { IfOk result (λ entry. entry ≡ line_says line.now) }
{
    match line_fields(alloc, line)? {
        Some(fields) => Ok(read_fields(fields.as_slice())),
        None => Ok(None),
    }
}
