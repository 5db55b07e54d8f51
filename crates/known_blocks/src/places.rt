//! What is known of X and Z behind the motion of a block. behind.rt asks it.
ghost use Rattle.std.specs.Prelude.{◌≡◌};
ghost use Rattle.block_values.specs.Motion.{axis_under};
ghost use Rattle.known_blocks.specs.Places.{known_under, known_said, known_axis, is_near, known_way, known_part, leads_to_target, known_motion, known_end};

use crate::known::Known;
use code_tables::CodeKind;
use nc_number::{Axis, TRAVEL};

/// What the two words of an axis say: X and Z are ways if G91 is in force, as U and W always are.
fn axis_under(incremental: bool, word: Option<i64>, way: Option<i64>) -> Axis
    ensures { result ≡ axis_under incremental word way }
{
    if !incremental {
        return Axis::of(word, way);
    }
    match word {
        Some(length) => Axis::By(length),
        None => Axis::of(None, way),
    }
}

/// What the words of an axis say, of which there is one: known if it is known whether G91 is in
/// force.
fn known_under(incremental: Option<bool>, word: Option<i64>, way: Option<i64>) -> Option<Axis>
    ensures { result ≡ known_under incremental word way }
{
    match incremental {
        Some(incremental) => Some(axis_under(incremental, word, way)),
        None => None,
    }
}

/// What the two words of an axis say; without a word the axis stays.
fn known_said(incremental: Option<bool>, word: Option<i64>, way: Option<i64>) -> Option<Axis>
    ensures { result ≡ known_said incremental word way }
{
    match (word, way) {
        (None, None) => Some(Axis::Keep),
        _ => known_under(incremental, word, way),
    }
}

/// What is known of what the two words of an axis say; one of them may be calculated.
pub(crate) fn known_axis(
    incremental: Option<bool>,
    word: Option<Option<i64>>,
    way: Option<Option<i64>>,
) -> Option<Axis>
    ensures { result ≡ known_axis incremental word way }
{
    let Some(word) = word else {
        return None;
    };
    match way {
        Some(way) => known_said(incremental, word, way),
        None => None,
    }
}

/// Whether a length is no longer than the travel.
fn is_near(length: i64) -> bool
    ensures { result ≡ is_near length }
{
    length.unsigned_abs() <= TRAVEL
}

/// Where an axis leads that goes so far from where it stands; not known past the travel.
fn known_way(at: Option<i64>, way: i64) -> Option<i64>
    ensures { result ≡ known_way at way }
{
    match at {
        Some(at) if is_near(at) && is_near(way) => Some(at + way),
        _ => None,
    }
}

/// Where an axis stands behind a block.
fn known_part(axis: Option<Axis>, at: Option<i64>) -> Option<i64>
    ensures { result ≡ known_part axis at }
{
    match axis {
        None => None,
        Some(Axis::Keep) => at,
        Some(Axis::To(programmed)) => Some(programmed),
        Some(Axis::By(way)) => known_way(at, way),
    }
}

/// Whether a block of this code leads to where its axis words say.
fn leads_to_target(kind: CodeKind) -> bool
    ensures { result ≡ leads_to_target kind }
{
    matches!(
        kind,
        CodeKind::Rapid | CodeKind::Feed | CodeKind::ArcCw | CodeKind::ArcCcw | CodeKind::Thread
    )
}

/// X and Z behind a motion of this code. A canned cycle ends where it begins.
fn known_motion(kind: Option<CodeKind>, x: Option<Axis>, z: Option<Axis>, known: &Known) -> Known
    ensures { result ≡ known_motion kind x z known.now }
{
    let Some(kind) = kind else {
        return known.nowhere();
    };
    if leads_to_target(kind) {
        return Known {
            x: known_part(x, known.x),
            z: known_part(z, known.z),
            ..*known
        };
    }
    if kind.is_cycle() {
        *known
    } else {
        known.nowhere()
    }
}

/// X and Z behind the block, by its one-shot code: a dwell and a speed limit move nothing; behind
/// every other (G10, G28, G53) they are not known.
pub(crate) fn known_end(
    one_shot: Option<CodeKind>,
    x: Option<Axis>,
    z: Option<Axis>,
    known: &Known,
) -> Known
    ensures { result ≡ known_end one_shot x z known.now }
{
    match one_shot {
        None => known_motion(known.motion, x, z, known),
        Some(CodeKind::Dwell) | Some(CodeKind::Limit) => *known,
        Some(_) => known.nowhere(),
    }
}
