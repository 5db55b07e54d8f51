//! What the written points of a corner keep, as a law of its own: nothing is called.
ghost use Rattle.std.specs.Prelude.{◌≡◌, Ok};
ghost use Rattle.corner_form.specs.declared.corner.Corner.{Corner};
ghost use Rattle.corner_form.specs.declared.corner.CornerEnds.{CornerEnds};
ghost use Rattle.corner_form.specs.declared.corner.RoundCorner.{RoundCorner};
ghost use Rattle.corner_form.specs.Cuts.{chamfer_of, rounding_of};
ghost use Rattle.corner_form.specs.Keeps.{IsChamfer, IsRounding};

/// A law, of the points that are written. Both ends of a corner lie on their lines, between the ends
/// of these, within 0.001 mm. Those of a chamfer are as far from the corner as it says, within
/// 0.001 mm. The centre of a rounding lies at its radius beside both lines, on the side to which they
/// turn, within 0.001 mm, and both ends at the radius from it within 0.002 mm.
#[tactic(auto, using(crate::proofs::CornersKeep::chamfer_keeps, crate::proofs::CornersKeep::rounding_keeps))]
pub fn corners_lie_on_their_lines()
    ensures chamfer { (corner : Corner) (ends : CornerEnds) → chamfer_of corner ≡ Ok ends → IsChamfer corner ends }
    ensures rounding { (corner : Corner) (round : RoundCorner) → rounding_of corner ≡ Ok round → IsRounding corner round }
{}
