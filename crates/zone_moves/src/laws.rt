//! What a judgement says of the moves of both paths. Each law is the contract of a function that
//! does nothing: a caller of it has the law.
ghost use Rattle.std.specs.Prelude.{◌≡◌, ◌≤◌, ℕ, List, None, Some, Contains};
ghost use Rattle.nc_number.specs.declared.path.Path.TheVariants.{One, Two};
ghost use Rattle.nc_number.specs.declared.point.Point.{Point};
ghost use Rattle.nc_outside.specs.declared.lined_move.LinedMove.{LinedMove};
ghost use Rattle.zone_area.specs.Passing.{IsInside, AreApart, point_in_cell};
ghost use Rattle.zone_moves.specs.declared.fixed.FixedBox.{FixedBox};
ghost use Rattle.zone_moves.specs.declared.judging.Hit.{Hit};
ghost use Rattle.zone_moves.specs.declared.stretch.Stretch.{Stretch};
ghost use Rattle.zone_moves.specs.Fixed.{binds};
ghost use Rattle.zone_moves.specs.Judged.{judged};
ghost use Rattle.zone_moves.specs.Stretches.{CellView, stretches_of};
ghost use Rattle.zone_moves.specs.Touching.{Touches, all_moves, IsTrueHit, AreUpright};

/// Where nothing is hit, any two points that the bodies of the paths may touch, at whatever time
/// each, differ by more than the gap in X or in Z, however finely points are counted.
pub fn clear_moves_keep_apart()
    ensures { (d : ℕ) (cell : CellView) (tool other : ℕ) (at to : Point) (left right : List LinedMove) (p q : Point)
        → 1 ≤ d → judged cell (stretches_of cell One tool at left) (stretches_of cell Two other to right) ≡ None
        → Touches all_moves d cell One tool at left p → Touches all_moves d cell Two other to right q
        → AreApart d cell.gap (point_in_cell d cell.frames.one p) (point_in_cell d cell.frames.two q) }
{}

/// Where nothing is hit, each point that the body of a path may touch in moves that a fixed box of
/// this path bars differs from each point of the box by more than the gap in X or in Z.
pub fn clear_moves_keep_off_boxes()
    ensures left { (d : ℕ) (cell : CellView) (tool other : ℕ) (at to : Point) (left right : List LinedMove)
        (fixed : FixedBox) (p q : Point)
        → 1 ≤ d → judged cell (stretches_of cell One tool at left) (stretches_of cell Two other to right) ≡ None
        → Contains cell.boxes fixed → fixed.path ≡ One
        → Touches (binds fixed.keeps) d cell One tool at left p → IsInside d fixed.area q
        → AreApart d cell.gap (point_in_cell d cell.frames.one p) q }
    ensures right { (d : ℕ) (cell : CellView) (tool other : ℕ) (at to : Point) (left right : List LinedMove)
        (fixed : FixedBox) (p q : Point)
        → 1 ≤ d → judged cell (stretches_of cell One tool at left) (stretches_of cell Two other to right) ≡ None
        → Contains cell.boxes fixed → fixed.path ≡ Two
        → Touches (binds fixed.keeps) d cell Two other to right p → IsInside d fixed.area q
        → AreApart d cell.gap (point_in_cell d cell.frames.two p) q }
{}

/// What is hit does come within the gap: two stretches of these lists, or a stretch and a box that
/// bars it, are areas with a point each that differ by no more than the gap, neither in X nor in Z.
pub fn what_is_hit_is_near()
    ensures { (cell : CellView) (lefts rights : List Stretch) (hit : Hit) → AreUpright cell lefts rights
        → judged cell lefts rights ≡ Some hit → IsTrueHit cell lefts rights hit }
{}
