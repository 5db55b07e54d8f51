//! The laws that no block of G71, G72 or G70 enters the contour, and that a form without a fault is one.
ghost use Rattle.std.specs.Prelude.{◌≡◌, ℕ, ◌≤◌, ◌<◌, length, None};
ghost use Rattle.nc_number.specs.declared.point.Point.{Point};
ghost use Rattle.rough_forms.specs.Frames.{seen};
ghost use Rattle.rough_forms.specs.Roughing.{Rough, IsForm, IsFinishStart, first_moved, pieces_moved, outer_moved, inner_moved, inner_edges, passes_from, passes_blocks, rough_blocks, finish_blocks};
ghost use Rattle.rough_forms.specs.Check.{form_fault, IsSound};
ghost use Rattle.arc_contour.specs.Least.{EndsMet};
ghost use Rattle.rough_forms.specs.Left.{IsStock, IsNearCut};
ghost use Rattle.rough_forms.specs.Told.{KeepOut};

/// A law, for points counted in any number of parts of 0.001 mm (`d` of them), of a form that is seen
/// in any frame: along the axis or across it, outside or inside, to smaller or greater Z. No point that
/// a block of a pass may pass lies inside the outer bound of the contour with its allowances
/// (`passes`), no point of the whole G71 part inside its inner bound (`rough`), and no point of the
/// G70 part, from a start above the contour, inside the inner bound of the contour (`finish`). Where
/// each arc ends on its circle, and within its quadrant, the bounds are one (`the_bounds_are_one`).
pub fn no_block_enters_the_contour()
    ensures passes { (d : ℕ) (r : Rough) (start : Point) (most : ℕ) → 1 ≤ d → IsForm r → seen r.frame start ≡ r.start
        → KeepOut d r.frame (first_moved r) (outer_moved r) start (passes_blocks r most) }
    ensures rough { (d : ℕ) (r : Rough) (start : Point) (most : ℕ) → 1 ≤ d → IsForm r → seen r.frame start ≡ r.start
        → KeepOut d r.frame (first_moved r) (inner_moved r) start (rough_blocks r most) }
    ensures finish { (d : ℕ) (r : Rough) (start : Point) → IsForm r → IsFinishStart r (seen r.frame start)
        → KeepOut d r.frame r.first (inner_edges r) start (finish_blocks r (seen r.frame start)) }
{}

/// A law: a form in which no fault is found is one that may be written out.
#[tactic(auto, using(crate::proofs::Sound::no_fault))]
pub fn a_form_without_fault_is_sound()
    ensures { (r : Rough) → form_fault r ≡ None → IsSound r }
{}

/// A law: nothing is left but the allowance. A whole point of the start's stock, on which no edge of
/// the contour with its allowances lies above it, lies no lower than a depth of cut under a pass that
/// goes by at its Z, or under the start's level. It wants that the passes end before they are too many,
/// and that each arc that bulges ends on its circle, or outside, and within its quadrant; a point at
/// the very Z at which the contour begins is left out.
#[tactic(auto, using(crate::proofs::NothingLeft::nothing_left))]
pub fn nothing_is_left_but_a_cut()
    ensures { (r : Rough) (most : ℕ) (at : Point) → IsForm r → EndsMet r.frame.way (first_moved r) (pieces_moved r)
        → length (passes_from r 1 most) < most → IsStock r at → IsNearCut r most at }
{}
