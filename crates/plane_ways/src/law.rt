//! What the test of two lines means, as a law of its own: nothing is called.
ghost use Rattle.std.specs.Prelude.{◌≡◌, ℕ, true, List};
ghost use Rattle.plane_ways.specs.declared.place.Place.{Place};
ghost use Rattle.plane_ways.specs.Apart.{is_apart, AreApart, is_off, IsOff};

/// A law: if the test says so, every place of the line from a to b is at least d from every place of
/// the line from p to q, in any number of parts (`lines`), and from every place of a contour
/// (`contour`).
#[tactic(auto, using(crate::proofs::Strips::apart_holds, crate::proofs::Strips::off_holds))]
pub fn lines_keep_their_distance()
    ensures lines { (d : ℕ) (a b p q : Place) → is_apart d a b p q ≡ true → AreApart d a b p q }
    ensures contour { (d : ℕ) (a b p : Place) (points : List Place) → is_off d a b p points ≡ true → IsOff d a b p points }
{}
