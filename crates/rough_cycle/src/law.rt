//! Laws of the passes and of the moves of G71 and G70. Docs/GUARANTEES.md names both.
ghost use Rattle.std.specs.Prelude.{◌≡◌, ℕ, List, ◌∷◌, true, false, ℤ, ◌≤ℤ◌, ◌<ℤ◌};
ghost use Rattle.rough_cycle.specs.Contour.{Descends};
ghost use Rattle.rough_cycle.specs.Inside.{some_holds, is_below_each, is_inside_from};
ghost use Rattle.nc_number.specs.declared.point.Point.{Point};
ghost use Rattle.rough_cycle.specs.Roughing.{end_at, Rough, IsForm, IsFinishStart, first_moved, points_moved, rough_blocks, finish_blocks};
ghost use Rattle.rough_cycle.specs.Moves.{AreClear};

/// A law: of a form, no whole point on a move of the G71 part lies inside the contour with its
/// allowances, and none on a move of the G70 part, from a start above and before the contour,
/// inside the contour.
pub fn no_move_enters_the_contour()
    ensures rough { (r : Rough) (most : ℕ) → IsForm r
        → AreClear (first_moved r) (points_moved r) r.start (rough_blocks r most) }
    ensures finish { (r : Rough) (start : Point) → IsForm r → IsFinishStart r start
        → AreClear r.first r.points start (finish_blocks r start) }
{}

/// A law: on a contour that descends, the end of a pass not below the first point is the least
/// whole Z at which the contour has X at most the pass's. It is a Z of the contour, if that has two
/// points or more (`held`), a point there is not inside (`reached`), and a point at a lesser Z is
/// below each segment that its Z lies in (`least`).
#[tactic(auto, using(crate::proofs::LeastEnd::least, crate::proofs::LeastEnd::reached, crate::proofs::LeastEnd::at_the_end))]
pub fn an_end_is_the_least()
    ensures held { (x : ℤ) (first second : Point) (points : List Point) → Descends first (second ∷ points)
        → first.x ≤ℤ x → some_holds first (second ∷ points) (end_at x first (second ∷ points)) ≡ true }
    ensures reached { (first : Point) (points : List Point) (at : Point) → Descends first points → first.x ≤ℤ at.x
        → end_at at.x first points ≡ at.z → is_inside_from first points at ≡ false }
    ensures least { (first : Point) (points : List Point) (at : Point) → Descends first points → first.x ≤ℤ at.x
        → at.z <ℤ end_at at.x first points → is_below_each first points at ≡ true }
{}
