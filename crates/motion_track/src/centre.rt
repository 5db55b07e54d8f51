//! The centre of an arc, from I, K and R. For block.rt of this crate; tests call it too.
ghost use Rattle.std.specs.Prelude.{◌≡◌, ◌↔◌, ℕ, IsNone};
ghost use Rattle.motion_track.specs.Centre.{centre_of, IsLengthWithin, IsGivenWithin};

use nc_moves::Centre;

/// The centre that the words I, K and R give, as radius values in 0.001 mm. R goes before I and K.
/// Where one of I and K is given, the other counts 0; where no word is, there is no centre. A
/// vacant word is none.
pub fn centre_of(i: Option<i64>, k: Option<i64>, r: Option<i64>) -> Option<Centre>
    ensures centre { result ≡ centre_of i k r }
    ensures none { IsNone result ↔ (IsNone i × IsNone k × IsNone r) }
    ensures within { (far : ℕ) → IsLengthWithin far i → IsLengthWithin far k → IsLengthWithin far r
        → IsGivenWithin far result }
{
    match (i, k, r) {
        (_, _, Some(r)) => Some(Centre::Radius { r }),
        (None, None, None) => None,
        (i, k, None) => Some(Centre::Offset {
            i: i.unwrap_or(0),
            k: k.unwrap_or(0),
        }),
    }
}
