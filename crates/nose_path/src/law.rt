//! What a path of the nose keeps, as a law of its own: nothing is called.
ghost use Rattle.std.specs.Prelude.{◌≡◌, ◌-◌, ◌≤◌, ◌<ℤ◌, pos, true, List, Ok, Some, None};
ghost use Rattle.plane_ways.specs.declared.place.Place.{Place};
ghost use Rattle.plane_ways.specs.declared.place.Line.{Line};
ghost use Rattle.nose_path.specs.declared.nose.Nose.{Nose};
ghost use Rattle.nose_path.specs.declared.nose.Ends.{Ends};
ghost use Rattle.plane_ways.specs.declared.place.TheConstants.{FAR};
ghost use Rattle.nose_path.specs.declared.nose.TheConstants.{OFF};
ghost use Rattle.nose_path.specs.Paths.{KeepsOff};
ghost use Rattle.nose_path.specs.declared.nose.Turn.{Turn};
ghost use Rattle.plane_ways.specs.Plane.{way, dot, IsWithin};
ghost use Rattle.nose_path.specs.Beside.{HasLegs, is_beside};
ghost use Rattle.plane_ways.specs.Steps.{direction};
ghost use Rattle.nose_path.specs.Legs.{path_of, places_of, beside, kept, IsCorner};

/// A law: every place on the moves of a path is at least the radius, less 0.002 mm, from every place
/// of the whole contour, in any number of parts (`off`); and each line of the contour has its leg,
/// all of which lies on the tool's side of it, at the radius from it within 0.002 mm (`beside`).
#[tactic(auto, using(crate::proofs::PathHolds::path_keeps_off, crate::proofs::PathHolds::path_has_legs))]
pub fn a_path_keeps_its_radius()
    ensures off { (nose : Nose) (ends : Ends) (p : Place) (points : List Place) (legs : List Line)
        → path_of nose ends p points ≡ Ok legs → KeepsOff (nose.radius - OFF) (places_of legs) p points }
    ensures beside { (nose : Nose) (ends : Ends) (p : Place) (points : List Place) (legs : List Line)
        → path_of nose ends p points ≡ Ok legs → HasLegs nose.side nose.radius p points legs }
{}

/// A law: a place square to a line, at its start (`start`) or its end (`end`), is beside the line.
pub fn a_perpendicular_stands_beside_its_line()
    ensures start { (nose : Nose) (p q d at : Place) → 4 ≤ nose.radius → nose.radius ≤ 2000000 → IsWithin FAR p → IsWithin FAR q
        → direction p q ≡ Some d → beside nose p d ≡ Some at → is_beside nose.side nose.radius p q at ≡ true }
    ensures end { (nose : Nose) (p q d at : Place) → 4 ≤ nose.radius → nose.radius ≤ 2000000 → IsWithin FAR p → IsWithin FAR q
        → direction p q ≡ Some d → beside nose q d ≡ Some at → is_beside nose.side nose.radius p q at ≡ true }
{}

/// A law: where the legs of two lines end and begin at a corner, they are beside their lines
/// (`before`, `behind`), so that rounding never uses a leg up: a leg that is not kept goes back along
/// its line (`back`), since the nose does not fit.
pub fn a_corner_stands_beside_its_lines()
    ensures before { (nose : Nose) (p q t d e : Place) (turn : Turn) → IsCorner nose p q t d e turn
        → is_beside nose.side nose.radius p q turn.to ≡ true }
    ensures behind { (nose : Nose) (p q t d e : Place) (turn : Turn) → IsCorner nose p q t d e turn
        → is_beside nose.side nose.radius q t turn.from ≡ true }
    ensures back { (nose : Nose) (p q t d e : Place) (turn : Turn) (at : Place) → IsCorner nose p q t d e turn
        → is_beside nose.side nose.radius p q at ≡ true → kept nose p q (record { from = at; to = turn.to }) ≡ None
        → dot (way p q) (way at turn.to) <ℤ pos 0 }
{}
