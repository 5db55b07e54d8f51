//! The lines of a list of zones, each as a piece.
ghost use Rattle.std.specs.Prelude.{◌≡◌, ◌+◌, ◌≤◌, ◌++◌, length};
ghost use Rattle.text_pieces.specs.declared.piece.TheConstants.{MOST_BYTES};
ghost use Rattle.zone_cell.specs.Lines.{across_text, along_text, area_text, state_text, zone_text, head_text, end_text};

use crate::cell::Zone;
use nc_number::Point;
use text_pieces::Piece;
use zone_area::Area;

/// Adds the edges of an area along X, which are those of its corners.
#[tactic(auto, unfolding(crate::specs::Lines::across_text))]
fn add_across(piece: &mut Piece, low: Point, high: Point)
    requires { length piece.old + 52 ≤ MOST_BYTES }
    ensures text { piece.new ≡ piece.old ++ across_text low high }
    ensures size { length piece.new ≤ length piece.old + 52 }
{
    piece.add(b" X");
    piece.add_length(low.x);
    piece.add(b" X");
    piece.add_length(high.x);
}

/// Adds the edges of an area along Z, which are those of its corners.
#[tactic(auto, unfolding(crate::specs::Lines::along_text))]
fn add_along(piece: &mut Piece, low: Point, high: Point)
    requires { length piece.old + 52 ≤ MOST_BYTES }
    ensures text { piece.new ≡ piece.old ++ along_text low high }
    ensures size { length piece.new ≤ length piece.old + 52 }
{
    piece.add(b" Z");
    piece.add_length(low.z);
    piece.add(b" Z");
    piece.add_length(high.z);
}

/// Adds the edges of an area: those along X, and then those along Z.
#[tactic(auto, unfolding(crate::specs::Lines::area_text))]
fn add_area(piece: &mut Piece, area: Area)
    requires { length piece.old + 104 ≤ MOST_BYTES }
    ensures text { piece.new ≡ piece.old ++ area_text area }
    ensures size { length piece.new ≤ length piece.old + 104 }
{
    add_across(piece, area.low, area.high);
    add_along(piece, area.low, area.high);
}

/// Adds whether the areas are clear.
fn add_state(piece: &mut Piece, clear: bool)
    requires { length piece.old + 7 ≤ MOST_BYTES }
    ensures { piece.new ≡ piece.old ++ state_text clear }
{
    if clear {
        piece.add(b" clear\n");
    } else {
        piece.add(b" hit\n");
    }
}

/// The line of a zone: its number, its areas, and whether they are clear.
#[tactic(auto, unfolding(crate::specs::Lines::zone_text))]
pub fn zone_line(number: u64, zone: &Zone) -> Piece
    ensures { result ≡ zone_text number zone.now }
{
    let mut piece = Piece::empty();
    piece.add_number(number);
    add_area(&mut piece, zone.areas.one);
    add_area(&mut piece, zone.areas.two);
    add_state(&mut piece, zone.clear);
    piece
}

/// The line before the zones: how many there are.
#[tactic(auto, unfolding(crate::specs::Lines::head_text))]
pub fn head_line(count: u64) -> Piece
    ensures { result ≡ head_text count }
{
    let mut piece = Piece::empty();
    piece.add(b"zones ");
    piece.add_number(count);
    piece.add(b"\n");
    piece
}

/// The line behind the zones: whether all are clear, or how many are not.
#[tactic(auto, unfolding(crate::specs::Lines::end_text))]
pub fn end_line(hits: u64) -> Piece
    ensures { result ≡ end_text hits }
{
    let mut piece = Piece::empty();
    if hits == 0 {
        piece.add(b"end clear\n");
    } else {
        piece.add(b"end hit ");
        piece.add_number(hits);
        piece.add(b"\n");
    }
    piece
}
