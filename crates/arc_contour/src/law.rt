//! Laws of the bounds of a contour, and of where a pass over it ends.
ghost use Rattle.std.specs.Prelude.{◌≡◌, List, true, pos, ◌+ℤ◌, ◌≤ℤ◌, ◌<ℤ◌};
ghost use Rattle.nc_number.specs.declared.point.Point.{Point};
ghost use Rattle.arc_contour.specs.Edges.{edges_of, square_between, bulge_square, hollow_square};
ghost use Rattle.arc_contour.specs.declared.piece.Piece.{Piece};
ghost use Rattle.arc_contour.specs.declared.way.Way.{Way};
ghost use Rattle.arc_contour.specs.declared.edge.Bound.TheVariants.{Outer, Inner};
ghost use Rattle.arc_contour.specs.Contour.{Descends, last_of};
ghost use Rattle.arc_contour.specs.Ends.{end_at};
ghost use Rattle.arc_contour.specs.Least.{is_below_some, LeadsOn, EndsMet};

/// A law of the end of a pass that is not below the contour's first point, on a contour that descends.
/// `least`: if each arc that bulges leads on in Z, it is the least whole Z: at the whole Z before it,
/// while that lies on the contour, the pass is below an edge of the outer bound. `leaves`: so it is at
/// each whole Z before it, if each arc that bulges ends on its circle, or outside, and within its
/// quadrant.
pub fn an_end_is_the_least()
    ensures least { (way : Way) (first : Point) (pieces : List Piece) (at : Point) → Descends first pieces
        → LeadsOn first pieces → first.x ≤ℤ at.x
        → (at.z +ℤ pos 1) ≡ end_at at.x first (edges_of way Outer first pieces)
        → (last_of first pieces).z ≤ℤ at.z → is_below_some first (edges_of way Outer first pieces) at ≡ true }
    ensures leaves { (way : Way) (first : Point) (pieces : List Piece) (at : Point) → Descends first pieces
        → EndsMet way first pieces → first.x ≤ℤ at.x
        → at.z <ℤ end_at at.x first (edges_of way Outer first pieces)
        → (last_of first pieces).z ≤ℤ at.z → is_below_some first (edges_of way Outer first pieces) at ≡ true }
{}

/// A law: both bounds of an arc from p to q round c are one, if its ends lie equally far from the
/// centre; of an arc that bulges, if it lies besides within its quadrant.
pub fn the_bounds_are_one()
    ensures bulge { (way : Way) (p q c : Point) → square_between way p c ≡ square_between way q c
        → c.x ≤ℤ p.x → c.z ≤ℤ q.z → bulge_square way Outer p q c ≡ bulge_square way Inner p q c }
    ensures hollow { (way : Way) (p q c : Point) → square_between way p c ≡ square_between way q c
        → hollow_square way Outer p q c ≡ hollow_square way Inner p q c }
{}
