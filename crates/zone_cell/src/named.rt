//! What the fields of a line of zones say: `frame`, `mirror` or `gap`, or nothing.
//! For reading.rt of this crate.
ghost use Rattle.std.specs.Prelude.{◌≡◌, IfOk, IfSome};
ghost use Rattle.field_lines.specs.Field.{texts};
ghost use Rattle.field_lines.specs.Line.{line_says};
ghost use Rattle.zone_cell.specs.Entry.{is_gap, frame_of, mirror_of, gap_of, named_of, fields_say, IsAllowed};

use crate::entry::Entry;
use field_lines::{line_fields, read_path, read_point};
use nc_number::Point;
use std::alloc::{AllocError, Global};

/// What the values of `frame` say: a path, and where its origin lies in the cell.
#[tactic(auto, unfolding(crate::specs::Entry::frame_of))]
fn frame(values: &[&[u8]]) -> Option<Entry>
    ensures value { result ≡ frame_of (texts values.now) }
    ensures allowed { IfSome result IsAllowed }
{
    match values {
        [path, x, z] => {
            let path = read_path(path)?;
            let to = read_point(x, z)?;
            Some(Entry::Frame { path, to })
        }
        _ => None,
    }
}

/// What the value of `mirror` says: a path that sees X from the other side.
#[tactic(auto, unfolding(crate::specs::Entry::mirror_of))]
fn mirror(values: &[&[u8]]) -> Option<Entry>
    ensures value { result ≡ mirror_of (texts values.now) }
    ensures allowed { IfSome result IsAllowed }
{
    match values {
        [path] => Some(Entry::Mirror(read_path(path)?)),
        _ => None,
    }
}

/// Whether neither length is below 0.
fn is_gap(gap: &Point) -> bool
    ensures { result ≡ is_gap gap.now }
{
    gap.x >= 0 && gap.z >= 0
}

/// What the values of `gap` say: how far apart the paths are to stay, in X and in Z.
#[tactic(auto, unfolding(crate::specs::Entry::gap_of))]
fn gap(values: &[&[u8]]) -> Option<Entry>
    ensures value { result ≡ gap_of (texts values.now) }
    ensures allowed { IfSome result IsAllowed }
{
    match values {
        [x, z] => {
            let gap = read_point(x, z)?;
            if is_gap(&gap) {
                Some(Entry::Gap(gap))
            } else {
                None
            }
        }
        _ => None,
    }
}

/// What a name and its values say; no other name than these three is allowed.
#[tactic(auto, unfolding(crate::specs::Entry::named_of))]
pub(crate) fn named(name: &[u8], values: &[&[u8]]) -> Option<Entry>
    ensures value { result ≡ named_of name.now (texts values.now) }
    ensures allowed { IfSome result IsAllowed }
{
    if name == b"frame".as_slice() {
        frame(values)
    } else if name == b"mirror".as_slice() {
        mirror(values)
    } else if name == b"gap".as_slice() {
        gap(values)
    } else {
        None
    }
}

/// What the fields of a line say.
#[tactic(auto, unfolding(crate::specs::Entry::fields_say))]
fn read_fields(fields: &[&[u8]]) -> Option<Entry>
    ensures value { result ≡ fields_say (texts fields.now) }
    ensures allowed { IfSome result IsAllowed }
{
    match fields {
        [] => Some(Entry::Nothing),
        [name, values @ ..] => named(name, values),
    }
}

/// What a line says, if it is allowed.
#[tactic(auto, unfolding(field_lines::specs::Line::line_says))]
pub(crate) fn read_line(alloc: Global, line: &[u8]) -> Result<Option<Entry>, AllocError>
    ensures value { IfOk result (λ entry. entry ≡ line_says fields_say line.now) }
    ensures allowed { IfOk result (λ entry. IfSome entry IsAllowed) }
{
    match line_fields(alloc, line)? {
        Some(fields) => Ok(read_fields(fields.as_slice())),
        None => Ok(None),
    }
}
