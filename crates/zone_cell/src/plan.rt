//! What a text of zones asks for: zones by areas, or a cell in which moves are judged one by one.
ghost use Rattle.std.specs.Prelude.{◌≡◌, ◌<◌, ◌^◌, ◌-◌, length, IfOk, OnOk};
ghost use Rattle.nc_number.specs.Answers.{GivesBy};
ghost use Rattle.nc_number.specs.Position.{IsPosition};
ghost use Rattle.zone_moves.specs.Cells.{AreShifted};
ghost use Rattle.zone_cell.specs.CellEntry.{is_by_moves, IsCellAllowed};
ghost use Rattle.zone_cell.specs.Entry.{IsAllowed};
ghost use Rattle.zone_cell.specs.Faults.{fault_line};
ghost use Rattle.zone_cell.specs.Plans.{facing_z_frame, with_cell_entry, cell_of, plan_of};
ghost use Rattle.zone_cell.specs.Zones.{facing_frame, shifted_to, with_frame};
ghost use Rattle.zone_cell.specs.declared.cell_entry.CellEntry.TheVariants as says;

use crate::cell::Zones;
use crate::cell_entry::CellEntry;
use crate::cell_line::{is_by_moves_line, read_cell_line};
use crate::entry::Entry;
use crate::reading::{ZoneFault, read_zones};
use field_lines::cut_line;
use nc_number::{Both, Failing, NoMemory, Path, Point};
use std::alloc::{AllocError, Global};
use zone_area::Frame;
use zone_moves::{Cell, FixedBox};

/// What a text of zones asks for.
#[derive(Debug, Drop)]
pub enum Plan {
    /// One area of each path for each segment.
    Areas(Zones),
    /// Each move with the body of its tool.
    Moves(Cell),
}

/// Whether a text has a line `by moves`.
#[tactic(auto, unfolding(crate::specs::CellEntry::is_by_moves))]
fn is_by_moves(alloc: Global, text: &[u8]) -> Result<bool, AllocError>
    ensures { IfOk result (λ said. said ≡ is_by_moves text.now) }
{
    let mut rest = text;
    while !rest.is_empty() {
        let (front, after) = cut_line(rest);
        if is_by_moves_line(alloc, front)? {
            return Ok(true);
        }
        rest = after;
    }
    Ok(false)
}

/// The frames with another shift of a path.
fn shifted(frames: Both<Frame>, path: Path, to: Point) -> Both<Frame>
    requires frames { AreShifted frames }
    requires to { IsPosition to }
    ensures frames { result ≡ with_frame frames path (shifted_to to) }
    ensures near { AreShifted result }
{
    let Both { mut one, mut two } = frames;
    match path {
        Path::One => one.shift = to,
        Path::Two => two.shift = to,
    }
    Both { one, two }
}

/// The frames with X mirrored of a path.
fn mirrored(frames: Both<Frame>, path: Path) -> Both<Frame>
    requires frames { AreShifted frames }
    ensures frames { result ≡ with_frame frames path facing_frame }
    ensures near { AreShifted result }
{
    let Both { mut one, mut two } = frames;
    match path {
        Path::One => one.mirror = true,
        Path::Two => two.mirror = true,
    }
    Both { one, two }
}

/// The frames with Z mirrored of a path.
fn mirrored_z(frames: Both<Frame>, path: Path) -> Both<Frame>
    requires frames { AreShifted frames }
    ensures frames { result ≡ with_frame frames path facing_z_frame }
    ensures near { AreShifted result }
{
    let Both { mut one, mut two } = frames;
    match path {
        Path::One => one.mirror_z = true,
        Path::Two => two.mirror_z = true,
    }
    Both { one, two }
}

/// Takes what a line says that a text by areas may say too.
fn take_plain(cell: &mut Cell, entry: Entry)
    requires { IsAllowed entry }
    ensures { cell.new ≡ with_cell_entry cell.old (says.Plain entry) }
{
    match entry {
        Entry::Nothing => {}
        Entry::Frame { path, to } => cell.set_frames(shifted(cell.frames(), path, to)),
        Entry::Mirror(path) => cell.set_frames(mirrored(cell.frames(), path)),
        Entry::Gap(gap) => cell.set_gap(gap),
    }
}

/// Takes what a line says. The only error is out of memory.
fn take(cell: &mut Cell, entry: CellEntry) -> Result<(), NoMemory>
    requires allowed { IsCellAllowed entry }
    requires few { length cell.old.boxes < 2 ^ 32 - 1 }
    ensures { OnOk result (cell.new ≡ with_cell_entry cell.old entry) }
{
    match entry {
        CellEntry::Plain(entry) => take_plain(cell, entry),
        CellEntry::ByMoves => {}
        CellEntry::MirrorZ(path) => cell.set_frames(mirrored_z(cell.frames(), path)),
        CellEntry::Tool(body) => cell.add_body(body)?,
        CellEntry::Fixed { path, area, keeps } => {
            let number = cell.box_count() as u32 + 1;
            cell.add_box(FixedBox {
                path,
                number,
                area,
                keeps,
            })?;
        }
    }
    Ok(())
}

/// Reads a text of zones by moves.
fn read_cell(alloc: Global, text: &[u8]) -> Result<Cell, Failing<ZoneFault>>
    requires { length text.now < 2 ^ 32 }
    ensures { GivesBy (λ cell. cell) fault_line result (cell_of text.now) }
{
    let mut cell = Cell::empty(alloc);
    let mut rest = text;
    let mut line = 0u32;
    while !rest.is_empty() {
        let (front, after) = cut_line(rest);
        line += 1;
        match read_cell_line(alloc, front)? {
            Some(entry) => take(&mut cell, entry)?,
            None => return Err(Failing::Fault(ZoneFault { line })),
        }
        rest = after;
    }
    Ok(cell)
}

/// Reads a text of zones: by moves if it has a line `by moves`, else by areas.
///
/// By moves a line may be, besides those of a text by areas: `by moves`; `tool p t X.. X.. Z.. Z..`,
/// the box of tool t of path p round the programmed point; `fixed p X.. X.. Z.. Z..`, a box in the
/// cell that the bodies of path p must keep off, or with `cut` behind it in rapid moves alone;
/// `mirror p Z`.
pub fn read_plan(alloc: Global, text: &[u8]) -> Result<Plan, Failing<ZoneFault>>
    requires { length text.now < 2 ^ 32 }
    // What the text asks for, or the first line that is not allowed, unless memory runs out.
    ensures exact { GivesBy (λ plan. plan) fault_line result (plan_of text.now) }
{
    if is_by_moves(alloc, text)? {
        match read_cell(alloc, text) {
            Ok(cell) => Ok(Plan::Moves(cell)),
            Err(fault) => Err(fault),
        }
    } else {
        match read_zones(alloc, text) {
            Ok(zones) => Ok(Plan::Areas(zones)),
            Err(fault) => Err(fault),
        }
    }
}
