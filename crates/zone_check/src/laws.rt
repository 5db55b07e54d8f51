//! What a zone says of its segment. Each law is the contract of a function that does nothing: who
//! calls it has the law.
//! These laws are for readers: no other crate calls them.
ghost use Rattle.std.specs.Prelude.{◌≡◌, ◌≤◌, ℕ, List, None, true};
ghost use Rattle.nc_number.specs.declared.point.Point.{Point};
ghost use Rattle.zone_area.specs.Passing.{MayPassSome, IsInside, AreApart, point_in_cell};
ghost use Rattle.zone_cell.specs.Zones.{ZonesView};
ghost use Rattle.nc_number.specs.declared.path.Path.{Path};
ghost use Rattle.nc_number.specs.Both.{of_path};
ghost use Rattle.run_records.specs.Entries.{Entry};
ghost use Rattle.tape_flow.specs.declared.flow.Flow.{Flow};
ghost use Rattle.block_values.specs.Moves.{last_end};
ghost use Rattle.two_path.specs.Machine.{MachineView};
ghost use Rattle.two_path.specs.Turns.{tapes_of};
ghost use Rattle.two_path.specs.Histories.{fold};
ghost use Rattle.nc_number.specs.declared.path.Path.TheVariants.{One, Two};
ghost use Rattle.zone_moves.specs.Stretches.{CellView};
ghost use Rattle.zone_moves.specs.Touching.{Touches, all_moves};
ghost use Rattle.zone_check.specs.Laps.{Lap, finding_of};
ghost use Rattle.zone_check.specs.Segments.{Segment, path_moves, zone_of};

use zone_area::{an_area_in_the_cell_holds_what_may_be_passed, clear_areas_keep_apart};
use zone_moves::clear_moves_keep_apart;

/// Each point that a path may pass in a segment lies in its area, in the cell, however finely
/// points are counted.
pub fn a_zone_holds_what_may_be_passed()
    ensures left { (d : ℕ) (zones : ZonesView) (s : Segment) (p : Point) → MayPassSome d s.left_at s.left p
        → IsInside d (zone_of zones s).areas.one (point_in_cell d zones.frames.one p) }
    ensures right { (d : ℕ) (zones : ZonesView) (s : Segment) (q : Point) → MayPassSome d s.right_at s.right q
        → IsInside d (zone_of zones s).areas.two (point_in_cell d zones.frames.two q) }
{
    an_area_in_the_cell_holds_what_may_be_passed();
}

/// In a clear zone any two points that the paths may pass differ by more than the gap in X or in Z,
/// whatever the timing of their moves between these meetings.
pub fn clear_zones_keep_apart()
    ensures { (d : ℕ) (zones : ZonesView) (s : Segment) (p q : Point) → 1 ≤ d → (zone_of zones s).clear ≡ true
        → MayPassSome d s.left_at s.left p → MayPassSome d s.right_at s.right q
        → AreApart d zones.gap (point_in_cell d zones.frames.one p) (point_in_cell d zones.frames.two q) }
{
    clear_areas_keep_apart();
}

/// A path stands where its moves led it: behind any records, at the end of the last of its moves
/// that goes somewhere. So a segment begins where the moves of the one before it end.
pub fn moves_lead_to_positions()
    ensures { (left right : Flow) (m : MachineView) (path : Path) (entries : List Entry)
        → (of_path (fold (tapes_of left right) m entries).paths path).path.position
        ≡ last_end (of_path m.paths path).path.position (path_moves (tapes_of left right) m path entries) }
{}

/// In a segment where nothing is hit move by move, any two points that the bodies of the tools may
/// touch differ by more than the gap in X or in Z, whatever the timing of the moves between these
/// meetings.
pub fn clear_laps_keep_apart()
    ensures { (d : ℕ) (cell : CellView) (lap : Lap) (p q : Point) → 1 ≤ d → (finding_of cell lap).hit ≡ None
        → Touches all_moves d cell One lap.left_tool lap.left_at lap.left p
        → Touches all_moves d cell Two lap.right_tool lap.right_at lap.right q
        → AreApart d cell.gap (point_in_cell d cell.frames.one p) (point_in_cell d cell.frames.two q) }
{
    clear_moves_keep_apart();
}
