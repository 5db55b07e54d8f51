//! What the fields of a line of a text by moves say: what they say by areas, or `by moves`, `tool`,
//! `fixed` and `mirror` of Z. For plan.rt of this crate.
ghost use Rattle.std.specs.Prelude.{◌≡◌, IfOk, IfSome};
ghost use Rattle.field_lines.specs.Field.{texts};
ghost use Rattle.field_lines.specs.Line.{line_fields, line_says};
ghost use Rattle.zone_moves.specs.Bodies.{IsBodyArea};
ghost use Rattle.zone_cell.specs.CellEntry.{are_by_moves, is_upright, box_of, tool_of, keeps_of, fixed_of, mirror_z_of, or_else, plain_of, cell_named_of, named_fields_say, cell_fields_say, fields_are_by_moves, IsCellAllowed};
ghost use Rattle.zone_cell.specs.Entry.{named_of};

use crate::cell_entry::CellEntry;
use crate::entry::Entry;
use crate::named::named;
use field_lines::{line_fields, number_in, read_path, read_point};
use nc_number::Point;
use std::alloc::{AllocError, Global};
use zone_area::Area;
use zone_moves::{Body, Keeps};

/// Whether the fields are the two words `by moves`.
#[tactic(auto, unfolding(crate::specs::CellEntry::are_by_moves))]
fn are_by_moves(fields: &[&[u8]]) -> bool
    ensures { result ≡ are_by_moves (texts fields.now) }
{
    match fields {
        [name, what] => *name == b"by".as_slice() && *what == b"moves".as_slice(),
        _ => false,
    }
}

/// Whether the low corner of a box is not beyond its high one.
fn is_upright(low: &Point, high: &Point) -> bool
    ensures { result ≡ is_upright low.now high.now }
{
    high.x >= low.x && high.z >= low.z
}

/// The box of two fields for X and two for Z, the lesser first.
#[tactic(auto, unfolding(crate::specs::CellEntry::box_of))]
fn read_box(left: &[u8], right: &[u8], below: &[u8], above: &[u8]) -> Option<Area>
    ensures value { result ≡ box_of left.now right.now below.now above.now }
    ensures near { IfSome result IsBodyArea }
{
    let low = read_point(left, below)?;
    let high = read_point(right, above)?;
    if is_upright(&low, &high) {
        Some(Area { low, high })
    } else {
        None
    }
}

/// What the values of `tool` say: the box of a tool of a path round the programmed point.
#[tactic(auto, unfolding(crate::specs::CellEntry::tool_of))]
fn tool(values: &[&[u8]]) -> Option<CellEntry>
    ensures value { result ≡ tool_of (texts values.now) }
    ensures allowed { IfSome result IsCellAllowed }
{
    match values {
        [path, tool, left, right, below, above] => {
            let path = read_path(path)?;
            let tool = number_in(0, 99, tool)?;
            let area = read_box(left, right, below, above)?;
            Some(CellEntry::Tool(Body {
                path,
                tool: tool as u16,
                area,
            }))
        }
        _ => None,
    }
}

/// Which moves a box bars, by what stands behind it: nothing, or `cut`.
#[tactic(auto, unfolding(crate::specs::CellEntry::keeps_of))]
fn keeps(words: &[&[u8]]) -> Option<Keeps>
    ensures { result ≡ keeps_of (texts words.now) }
{
    match words {
        [] => Some(Keeps::Whole),
        [word] => {
            if *word == b"cut".as_slice() {
                Some(Keeps::Rapids)
            } else {
                None
            }
        }
        _ => None,
    }
}

/// What the values of `fixed` say: a box in the cell that the bodies of a path must keep off.
#[tactic(auto, unfolding(crate::specs::CellEntry::fixed_of))]
fn fixed(values: &[&[u8]]) -> Option<CellEntry>
    ensures value { result ≡ fixed_of (texts values.now) }
    ensures allowed { IfSome result IsCellAllowed }
{
    match values {
        [path, left, right, below, above, words @ ..] => {
            let path = read_path(path)?;
            let area = read_box(left, right, below, above)?;
            let keeps = keeps(words)?;
            Some(CellEntry::Fixed { path, area, keeps })
        }
        _ => None,
    }
}

/// What the values of `mirror` say, if Z is mirrored: a path.
#[tactic(auto, unfolding(crate::specs::CellEntry::mirror_z_of))]
fn mirror_z(values: &[&[u8]]) -> Option<CellEntry>
    ensures value { result ≡ mirror_z_of (texts values.now) }
    ensures allowed { IfSome result IsCellAllowed }
{
    match values {
        [path, axis] => {
            let path = read_path(path)?;
            if *axis == b"Z".as_slice() {
                Some(CellEntry::MirrorZ(path))
            } else {
                None
            }
        }
        _ => None,
    }
}

/// What a name and its values say in a text by areas too.
fn plain(name: &[u8], values: &[&[u8]]) -> Option<CellEntry>
    ensures value { result ≡ plain_of (named_of name.now (texts values.now)) }
    ensures allowed { IfSome result IsCellAllowed }
{
    match named(name, values) {
        Some(entry) => Some(CellEntry::Plain(entry)),
        None => None,
    }
}

/// What `mirror` and its values say: of Z, or of X as in a text by areas.
fn mirror(name: &[u8], values: &[&[u8]]) -> Option<CellEntry>
    ensures value { result ≡ or_else (mirror_z_of (texts values.now)) (plain_of (named_of name.now (texts values.now))) }
    ensures allowed { IfSome result IsCellAllowed }
{
    match mirror_z(values) {
        Some(entry) => Some(entry),
        None => plain(name, values),
    }
}

/// What a name and its values say.
#[tactic(auto, unfolding(crate::specs::CellEntry::cell_named_of))]
fn cell_named(name: &[u8], values: &[&[u8]]) -> Option<CellEntry>
    ensures value { result ≡ cell_named_of name.now (texts values.now) }
    ensures allowed { IfSome result IsCellAllowed }
{
    if name == b"tool".as_slice() {
        tool(values)
    } else if name == b"fixed".as_slice() {
        fixed(values)
    } else if name == b"mirror".as_slice() {
        mirror(name, values)
    } else {
        plain(name, values)
    }
}

/// What fields say that are not `by moves`.
#[tactic(auto, unfolding(crate::specs::CellEntry::named_fields_say))]
fn named_fields(fields: &[&[u8]]) -> Option<CellEntry>
    ensures value { result ≡ named_fields_say (texts fields.now) }
    ensures allowed { IfSome result IsCellAllowed }
{
    match fields {
        [] => Some(CellEntry::Plain(Entry::Nothing)),
        [name, values @ ..] => cell_named(name, values),
    }
}

/// What the fields of a line say.
#[tactic(auto, unfolding(crate::specs::CellEntry::cell_fields_say))]
fn read_fields(fields: &[&[u8]]) -> Option<CellEntry>
    ensures value { result ≡ cell_fields_say (texts fields.now) }
    ensures allowed { IfSome result IsCellAllowed }
{
    if are_by_moves(fields) {
        Some(CellEntry::ByMoves)
    } else {
        named_fields(fields)
    }
}

/// What a line says, if it is allowed.
#[tactic(auto, unfolding(field_lines::specs::Line::line_says))]
pub(crate) fn read_cell_line(alloc: Global, line: &[u8]) -> Result<Option<CellEntry>, AllocError>
    ensures value { IfOk result (λ entry. entry ≡ line_says cell_fields_say line.now) }
    ensures allowed { IfOk result (λ entry. IfSome entry IsCellAllowed) }
{
    match line_fields(alloc, line)? {
        Some(fields) => Ok(read_fields(fields.as_slice())),
        None => Ok(None),
    }
}

/// Whether a line is `by moves`.
pub(crate) fn is_by_moves_line(alloc: Global, line: &[u8]) -> Result<bool, AllocError>
    ensures { IfOk result (λ said. said ≡ fields_are_by_moves (line_fields line.now)) }
{
    match line_fields(alloc, line)? {
        Some(fields) => Ok(are_by_moves(fields.as_slice())),
        None => Ok(false),
    }
}
