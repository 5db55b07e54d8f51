//! What is written of compensation, as a law of its own: nothing is called.
ghost use Rattle.std.specs.Prelude.{◌≡◌, Option, List, Some};
ghost use Rattle.nc_number.specs.declared.point.Point.{Point};
ghost use Rattle.plane_ways.specs.declared.place.Place.{Place};
ghost use Rattle.plane_ways.specs.declared.place.Line.{Line};
ghost use Rattle.plane_ways.specs.declared.place.Side.{Side};
ghost use Rattle.nose_words.specs.declared.said.NoseLine.{NoseLine};
ghost use Rattle.nose_words.specs.declared.told.Tip.{Tip};
ghost use Rattle.nose_words.specs.declared.cut.LegCut.{LegCut};
ghost use Rattle.nose_words.specs.declared.path.PathRead.TheVariants.{Legs};
ghost use Rattle.nose_words.specs.Path.{run_path};
ghost use Rattle.nose_words.specs.Cut.{leg_cut};
ghost use Rattle.nose_words.specs.Keeps.{KeepOff, AreBeside, IsCutOf};

/// A law, of the legs that a run is written along: the nose keeps its radius, within 0.002 mm, from the
/// whole contour (`off`), and each line of the contour has its leg beside it (`beside`). When the tool
/// is at a written point, the nose's centre is at the end of a leg (`points`).
pub fn a_written_nose_keeps_its_radius()
    ensures off { (side : Side) (tip : Tip) (start : Point) (lines : List NoseLine) (off : NoseLine) (legs : List Line)
        → run_path side tip start lines off ≡ Legs legs → KeepOff tip lines legs }
    ensures beside { (side : Side) (tip : Tip) (start : Point) (lines : List NoseLine) (off : NoseLine) (legs : List Line)
        → run_path side tip start lines off ≡ Legs legs → AreBeside side tip lines legs }
    ensures points { (tip : Tip) (at : Option Place) (leg : Line) (cut : LegCut)
        → leg_cut tip at leg ≡ Some cut → IsCutOf tip leg cut }
{}
