//! What holds of every area of moves. Each law is the contract of a function that does nothing: a
//! caller of it has the law. The first two are for readers.
ghost use Rattle.std.specs.Prelude.{◌≡◌, ◌≤◌, ℕ, List, true};
ghost use Rattle.nc_number.specs.declared.point.Point.{Point};
ghost use Rattle.nc_moves.specs.declared.motion.Move.{Move};
ghost use Rattle.zone_area.specs.declared.area.Area.{Area};
ghost use Rattle.zone_area.specs.declared.frame.Frame.{Frame};
ghost use Rattle.zone_area.specs.Passing.{MayPassSome, IsInside, AreApart, point_in_cell};
ghost use Rattle.zone_area.specs.Area.{HoldsAll, HoldsArea, area_of, area_in_cell, is_clear};

/// Each area that holds the ends of moves and the reach of their arcs holds every point that one of
/// the moves may pass, however finely points are counted.
pub fn an_area_holds_what_may_be_passed()
    ensures { (d : ℕ) (area : Area) (at : Point) (moves : List Move) (q : Point)
        → HoldsAll area at moves → MayPassSome d at moves q → IsInside d area q }
{}

/// The area of moves holds their ends and the reach of their arcs, and lies within each other that
/// does.
pub fn an_area_is_the_least()
    ensures holds { (at : Point) (moves : List Move) → HoldsAll (area_of at moves) at moves }
    ensures least { (at : Point) (moves : List Move) (other : Area) → HoldsAll other at moves
        → HoldsArea other (area_of at moves) }
{}

/// As it lies in the cell, the area of moves holds every point that they may pass.
pub fn an_area_in_the_cell_holds_what_may_be_passed()
    ensures { (d : ℕ) (f : Frame) (at : Point) (moves : List Move) (q : Point) → MayPassSome d at moves q
        → IsInside d (area_in_cell f (area_of at moves)) (point_in_cell d f q) }
{}

/// Where the areas of the moves of two paths are clear in the cell, any two points that they may
/// pass there differ by more than the gap in X or in Z.
pub fn clear_areas_keep_apart()
    ensures { (d : ℕ) (gap : Point) (f g : Frame) (at to : Point) (left right : List Move) (p q : Point)
        → 1 ≤ d
        → is_clear gap (area_in_cell f (area_of at left)) (area_in_cell g (area_of to right)) ≡ true
        → MayPassSome d at left p → MayPassSome d to right q
        → AreApart d gap (point_in_cell d f p) (point_in_cell d g q) }
{}
