//! G76 in two lines: `G76 P Q R` with the choices of the passes, and `G76 X Z R P Q F`.
ghost use Rattle.std.specs.Prelude.{◌≡◌, unwrap_or, pos};
ghost use Rattle.thread_cycle.specs.Near.{IsWritten};
ghost use Rattle.thread_form.specs.TwoLines.{finishing_of, pull_out_of, angle_of, left_of, range_cause, head_cause, twice_cause, ends_cause, feed_cause, body_cause, lead_of, cycle_of};

use crate::rounding::rounding_of;
use cycle_words::{
    calculated_in, count_or, count_said, first_cause, is_said, length_or, length_said, missing_of,
    no_count_in, place_said, scene_cause, unexpected_in, value_said,
};
use line_words::twice_of;
use nc_number::{Point, Value};
use nc_text::Word;
use plain_form::{FormSettings, PlainCause, Scene};
use thread_cycle::{ThreadCycle, TipAngle};

/// G76, in millionths.
pub(crate) const THREAD_CODE: i64 = 76_000_000;

/// How many passes are at the whole depth: the first two digits of P, or the machine's choice if
/// they are 0.
fn finishing_of(head: &[Word], settings: &FormSettings) -> u8
    ensures { result ≡ finishing_of settings.now head.now }
{
    let said = count_or(head, b'P', 0) / 10_000 % 100;
    if said == 0 {
        settings.thread_finishing
    } else {
        said as u8
    }
}

/// How far before its end the thread is left, in tenths of the lead: the next two digits of P.
fn pull_out_of(head: &[Word], settings: &FormSettings) -> u8
    ensures { result ≡ pull_out_of settings.now head.now }
{
    match count_said(head, b'P') {
        Some(said) => (said / 100 % 100) as u8,
        None => settings.thread_pull_out,
    }
}

/// The angle of the tip in degrees: the last two digits of P.
fn angle_of(head: &[Word], settings: &FormSettings) -> u8
    ensures { result ≡ angle_of settings.now head.now }
{
    match count_said(head, b'P') {
        Some(said) => (said % 100) as u8,
        None => settings.thread_angle,
    }
}

/// What is left for the passes at the whole depth.
fn left_of(head: &[Word], settings: &FormSettings) -> u64
    ensures { result ≡ left_of settings.now head.now }
{
    match length_said(head, b'R') {
        Some(said) => said.unsigned_abs(),
        None => settings.thread_left,
    }
}

/// Why a number of the first line is out of its range: P has at most six digits and an angle that
/// the cycle knows, R is not negative.
fn range_cause(head: &[Word], settings: &FormSettings) -> Option<PlainCause>
    ensures { result ≡ range_cause settings.now head.now }
{
    if count_or(head, b'P', 0) > 999_999 {
        return Some(PlainCause::Range(b'P'));
    }
    if TipAngle::of_degrees(angle_of(head, settings)).is_none() {
        return Some(PlainCause::Range(b'P'));
    }
    if length_or(head, b'R', 0) < 0 {
        Some(PlainCause::Range(b'R'))
    } else {
        None
    }
}

/// Why the first line is refused.
pub(crate) fn head_cause(head: &[Word], settings: &FormSettings) -> Option<PlainCause>
    ensures { result ≡ head_cause settings.now head.now }
{
    let strange = unexpected_in(head, b"GPQR", &[THREAD_CODE]);
    let calculated = calculated_in(head, b"PQR");
    let counts = no_count_in(head, b"PQ");
    let range = range_cause(head, settings);
    first_cause(strange, first_cause(calculated, first_cause(counts, range)))
}

/// That an end of the thread is missing.
pub(crate) fn ends_cause(body: &[Word]) -> Option<PlainCause>
    ensures { result ≡ ends_cause body.now }
{
    let x = missing_of(is_said(body, b'X') || is_said(body, b'U'), b'X');
    let z = missing_of(is_said(body, b'Z') || is_said(body, b'W'), b'Z');
    first_cause(x, z)
}

/// That neither the line nor one before it says the lead.
pub(crate) fn feed_cause(body: &[Word], scene: &Scene) -> Option<PlainCause>
    ensures { result ≡ feed_cause scene.now body.now }
{
    if is_said(body, b'F') || scene.feed.is_some() {
        None
    } else {
        Some(PlainCause::Feed)
    }
}

/// That an axis is named twice: X beside U, or Z beside W.
pub(crate) fn twice_cause(words: &[Word]) -> Option<PlainCause>
    ensures { result ≡ twice_cause words.now }
{
    first_cause(twice_of(words, b'X', b'U'), twice_of(words, b'Z', b'W'))
}

/// Why the second line is refused.
pub(crate) fn body_cause(body: &[Word], scene: &Scene) -> Option<PlainCause>
    ensures { result ≡ body_cause scene.now body.now }
{
    let letters = unexpected_in(body, b"GXUZWRPQF", &[THREAD_CODE]);
    let strange = first_cause(letters, twice_cause(body));
    let calculated = calculated_in(body, b"XUZWRPQF");
    let counts = no_count_in(body, b"PQ");
    let depth = missing_of(is_said(body, b'P'), b'P');
    let first = missing_of(is_said(body, b'Q'), b'Q');
    let words = first_cause(strange, first_cause(calculated, counts));
    let missing = first_cause(ends_cause(body), first_cause(depth, first));
    let known = first_cause(scene_cause(scene), feed_cause(body, scene));
    first_cause(words, first_cause(missing, known))
}

/// The lead: the line's, or the one before.
pub(crate) fn lead_of(body: &[Word], scene: &Scene) -> Value
    ensures { result ≡ lead_of scene.now body.now }
{
    match value_said(body, b'F') {
        Some(lead) => lead,
        None => feed_or_none(scene),
    }
}

/// The feed before, or 0.
fn feed_or_none(scene: &Scene) -> Value
    ensures { result ≡ unwrap_or scene.now.feed (pos 0) }
{
    match scene.feed {
        Some(feed) => feed,
        None => Value::zero(),
    }
}

/// What the two lines say, if neither is refused.
pub(crate) fn cycle_of(
    head: &[Word],
    body: &[Word],
    start: &Point,
    scene: &Scene,
    settings: &FormSettings,
) -> ThreadCycle
    requires { IsWritten start.now }
    ensures { result ≡ cycle_of settings.now scene.now start.now head.now body.now }
{
    ThreadCycle {
        start: *start,
        target: Point {
            x: place_said(body, b'X', b'U', start.x),
            z: place_said(body, b'Z', b'W', start.z),
        },
        taper: length_or(body, b'R', 0),
        depth: count_or(body, b'P', 0),
        first: count_or(body, b'Q', 0),
        least: count_or(head, b'Q', settings.thread_least),
        left: left_of(head, settings),
        finishing: finishing_of(head, settings),
        pull_out: pull_out_of(head, settings),
        tip: TipAngle::of_degrees(angle_of(head, settings)).unwrap_or(TipAngle::Degrees0),
        rounding: rounding_of(settings.thread_roots),
        lead: lead_of(body, scene),
    }
}
