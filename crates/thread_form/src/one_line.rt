//! G76 in one line: `G76 X Z I K D A P F`, with the thread's height K, the depth of the first cut D,
//! the taper I, the angle A and the way of cutting P. All else is the machine's choice.
ghost use Rattle.std.specs.Prelude.{◌≡◌, ◌%◌, ◌∷◌, []};
ghost use Rattle.thread_cycle.specs.Near.{IsWritten};
ghost use Rattle.thread_form.specs.OneLine.{line_letters, number_letters, range_cause, read_cause, missing_cause, line_cause, cycle_of};
ghost use Rattle.thread_cycle.specs.Tip.{tip_of_degrees};
ghost use Rattle.cycle_words.specs.Causes.{calculated_in, unexpected_in};
ghost use Rattle.cycle_words.specs.Numbers.{count_or};
ghost use Rattle.thread_form.specs.TwoLines.{thread_code};

use crate::rounding::rounding_of;
use crate::two_lines::{THREAD_CODE, ends_cause, feed_cause, lead_of, twice_cause};
use cycle_words::{
    calculated_in, count_or, first_cause, is_said, length_or, missing_of, no_count_in, place_said,
    scene_cause, unexpected_in,
};
use nc_number::Point;
use nc_text::Word;
use plain_form::{FormSettings, PlainCause, Scene};
use thread_cycle::{ThreadCycle, TipAngle};

/// Why a number is out of its range: K and D are not negative, A is an angle that the cycle knows,
/// and P is the way of cutting by one flank with equal sections.
fn range_cause(words: &[Word]) -> Option<PlainCause>
    ensures { result ≡ range_cause words.now }
{
    if length_or(words, b'K', 0) < 0 {
        return Some(PlainCause::Range(b'K'));
    }
    if length_or(words, b'D', 0) < 0 {
        return Some(PlainCause::Range(b'D'));
    }
    if tip_of(words).is_none() {
        return Some(PlainCause::Range(b'A'));
    }
    if count_or(words, b'P', 1) == 1 {
        None
    } else {
        Some(PlainCause::Range(b'P'))
    }
}

/// The angle of the tip: A, or 0.
fn tip_of(words: &[Word]) -> Option<TipAngle>
    ensures { result ≡ tip_of_degrees (count_or 65 0 words.now % 256) }
{
    TipAngle::of_degrees((count_or(words, b'A', 0) % 256) as u8)
}

/// Why its words can't be read.
fn read_cause(words: &[Word]) -> Option<PlainCause>
    ensures { result ≡ read_cause words.now }
{
    let counts = no_count_in(words, b"AP");
    let strange = first_cause(strange_cause(words), twice_cause(words));
    first_cause(strange, first_cause(calculated_cause(words), counts))
}

/// That a letter or a code is strange to the line.
fn strange_cause(words: &[Word]) -> Option<PlainCause>
    ensures { result ≡ unexpected_in line_letters (thread_code ∷ []) words.now }
{
    unexpected_in(words, line_letters(), &[THREAD_CODE])
}

/// That a word is calculated.
fn calculated_cause(words: &[Word]) -> Option<PlainCause>
    ensures { result ≡ calculated_in number_letters words.now }
{
    calculated_in(words, number_letters())
}

/// The letters of the line.
fn line_letters() -> &'static [u8]
    ensures { result.now ≡ line_letters }
{
    b"GXUZWIKDAPF"
}

/// Those whose words are numbers.
fn number_letters() -> &'static [u8]
    ensures { result.now ≡ number_letters }
{
    b"XUZWIKDAPF"
}

/// That a word is missing.
fn missing_cause(words: &[Word]) -> Option<PlainCause>
    ensures { result ≡ missing_cause words.now }
{
    let depth = missing_of(is_said(words, b'K'), b'K');
    let first = missing_of(is_said(words, b'D'), b'D');
    first_cause(ends_cause(words), first_cause(depth, first))
}

/// Why the line is refused.
pub(crate) fn line_cause(words: &[Word], scene: &Scene) -> Option<PlainCause>
    ensures { result ≡ line_cause scene.now words.now }
{
    let known = first_cause(scene_cause(scene), feed_cause(words, scene));
    let rest = first_cause(range_cause(words), known);
    first_cause(read_cause(words), first_cause(missing_cause(words), rest))
}

/// What the line says, if it is not refused.
pub(crate) fn cycle_of(
    words: &[Word],
    start: &Point,
    scene: &Scene,
    settings: &FormSettings,
) -> ThreadCycle
    requires { IsWritten start.now }
    ensures { result ≡ cycle_of settings.now scene.now start.now words.now }
{
    ThreadCycle {
        start: *start,
        target: Point {
            x: place_said(words, b'X', b'U', start.x),
            z: place_said(words, b'Z', b'W', start.z),
        },
        taper: length_or(words, b'I', 0),
        depth: length_or(words, b'K', 0).unsigned_abs(),
        first: length_or(words, b'D', 0).unsigned_abs(),
        least: settings.thread_least,
        left: settings.thread_left,
        finishing: settings.thread_finishing,
        pull_out: settings.thread_pull_out,
        tip: tip_of(words).unwrap_or(TipAngle::Degrees0),
        rounding: rounding_of(settings.thread_roots),
        lead: lead_of(words, scene),
    }
}
