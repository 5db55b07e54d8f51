//! What is in force in a run of holes, and the hole of a block.
ghost use Rattle.std.specs.Prelude.{◌≡◌, ◌≤◌, option_and_then, unsigned_abs};
ghost use Rattle.nc_number.specs.declared.limits.TheConstants.{LONGEST_SAID};
ghost use Rattle.peck_form.specs.Holes.{scaled_way, scaled, bottom_said, moved_from, beside_said, point_r_said, peck_said, dwell_said, feed_said, hole_after, level_of, moved_near, bottom_of, has_pecks, pecks_of, way_out_of, hole_to};

use crate::groove::doubled;
use crate::kind::{
    HoleCode, HoleKind, code_said, letter_of_place, letter_of_way, level_said, other_axis,
};
use code_tables::{CodeKind, System};
use cycle_words::{count_said, length_said, value_said};
use nc_number::{Axis, LONGEST_SAID, Value};
use nc_text::Word;
use peck_cycle::{Along, DrillCycle, Pecks, Retreat, ReturnLevel, WayOut};
use plain_form::FormSettings;

/// What is in force in a run of holes.
#[derive(Clone, Copy, Debug, PartialEq, Eq)]
pub(crate) struct HoleSaid {
    /// The code of the run.
    pub code: HoleCode,
    /// Where the tool was along the holes before the run.
    pub start: i64,
    /// Where it is beside them, if words can say it.
    pub beside: Option<i64>,
    /// The bottom: a place, or a way from the point R.
    pub bottom: Axis,
    /// The way from the start to the point R.
    pub point_r: i64,
    /// How deep a peck is; 0 if the hole has none.
    pub peck: u64,
    /// The rest at the bottom, in milliseconds.
    pub dwell: u64,
    /// The level to which the tool goes back.
    pub returns: ReturnLevel,
    /// The feed, if a word of the run said it.
    pub feed: Option<Value>,
    /// The code of motion in force before the run.
    pub motion: Option<CodeKind>,
}

/// A way along an axis: in X words count radii.
fn scaled_way(along: Along, way: i64) -> i64
    requires { unsigned_abs way ≤ LONGEST_SAID }
    ensures way { result ≡ scaled_way along way }
    ensures near { unsigned_abs result ≤ 200000000000 }
{
    match along {
        Along::Z => way,
        Along::X => 2 * way,
    }
}

/// A size along an axis: in X words count radii.
fn scaled(along: Along, size: u64) -> u64
    ensures { result ≡ scaled along size }
{
    match along {
        Along::Z => size,
        Along::X => doubled(size),
    }
}

/// The bottom that the words name, or the one before.
fn bottom_said(words: &[Word], along: Along, before: &Axis) -> Axis
    ensures { result ≡ bottom_said along before.now words.now }
{
    if let Some(place) = length_said(words, letter_of_place(along)) {
        return Axis::To(place);
    }
    match length_said(words, letter_of_way(along)) {
        Some(way) => Axis::By(way),
        None => *before,
    }
}

/// The place beside the holes that the words name, or the one before; none past what words can say.
fn beside_said(words: &[Word], along: Along, before: Option<i64>) -> Option<i64>
    ensures { result ≡ beside_said along before words.now }
{
    let other = other_axis(along);
    if let Some(place) = length_said(words, letter_of_place(other)) {
        return Some(place);
    }
    match length_said(words, letter_of_way(other)) {
        Some(way) => moved_before(before, way),
        None => before,
    }
}

/// The place so far from the one before, if words can say that one.
fn moved_before(before: Option<i64>, way: i64) -> Option<i64>
    requires { unsigned_abs way ≤ LONGEST_SAID }
    ensures { result ≡ option_and_then (moved_from way) before }
{
    match before {
        Some(from) => moved_from(from, way),
        None => None,
    }
}

/// The place so far from another, if words can say that one.
fn moved_from(from: i64, way: i64) -> Option<i64>
    requires { unsigned_abs way ≤ LONGEST_SAID }
    ensures { result ≡ moved_from way from }
{
    if from.unsigned_abs() <= LONGEST_SAID {
        Some(from + way)
    } else {
        None
    }
}

/// The way to the point R that the words name, or the one before.
fn point_r_said(words: &[Word], along: Along, before: i64) -> i64
    ensures { result ≡ point_r_said along before words.now }
{
    match length_said(words, b'R') {
        Some(way) => scaled_way(along, way),
        None => before,
    }
}

/// The depth of a peck that the words name, or the one before.
fn peck_said(words: &[Word], along: Along, before: u64) -> u64
    ensures { result ≡ peck_said along before words.now }
{
    match count_said(words, b'Q') {
        Some(peck) => scaled(along, peck),
        None => before,
    }
}

/// The rest that the words name, or the one before.
fn dwell_said(words: &[Word], before: u64) -> u64
    ensures { result ≡ dwell_said before words.now }
{
    match count_said(words, b'P') {
        Some(ms) => ms,
        None => before,
    }
}

/// The feed that the words name, or the one before.
fn feed_said(words: &[Word], before: Option<Value>) -> Option<Value>
    ensures { result ≡ feed_said before words.now }
{
    match value_said(words, b'F') {
        Some(feed) => Some(feed),
        None => before,
    }
}

impl HoleSaid {
    /// What is in force after the words of a block.
    pub(crate) fn after(&self, words: &[Word], system: System) -> HoleSaid
        ensures { result ≡ hole_after self.now system words.now }
    {
        let along = self.code.along();
        HoleSaid {
            code: code_said(words, &self.code),
            start: self.start,
            beside: beside_said(words, along, self.beside),
            bottom: bottom_said(words, along, &self.bottom),
            point_r: point_r_said(words, along, self.point_r),
            peck: peck_said(words, along, self.peck),
            dwell: dwell_said(words, self.dwell),
            returns: level_said(words, system, self.returns),
            feed: feed_said(words, self.feed),
            motion: self.motion,
        }
    }

    /// The place of the point R, if words can say the start.
    pub(crate) fn level(&self) -> Option<i64>
        ensures { result ≡ level_of self.now }
    {
        if self.start.unsigned_abs() <= LONGEST_SAID
            && self.point_r.unsigned_abs() <= 200_000_000_000
        {
            Some(self.start + self.point_r)
        } else {
            None
        }
    }

    /// The hole from a level to a bottom.
    pub(crate) fn hole_to(&self, level: i64, bottom: i64, settings: &FormSettings) -> DrillCycle
        ensures { result ≡ hole_to self.now level bottom settings.now }
    {
        DrillCycle {
            start: self.start,
            pecks: self.pecks(level, bottom, settings),
            dwell: if self.dwell == 0 {
                None
            } else {
                Some(self.dwell)
            },
            way_out: way_out_of(self.code.kind()),
            returns: self.returns,
        }
    }

    /// The pecks of a drill, or one cut.
    fn pecks(&self, level: i64, bottom: i64, settings: &FormSettings) -> Pecks
        ensures { result ≡ pecks_of self.now level bottom settings.now }
    {
        let along = self.code.along();
        if !self.has_pecks() {
            return Pecks::one_cut(along, level, bottom);
        }
        match settings.peck_retreat {
            Some(back) => Pecks {
                along,
                level,
                bottom,
                peck: self.peck,
                back: scaled(along, back),
                retreat: Retreat::Short,
            },
            None => Pecks {
                along,
                level,
                bottom,
                peck: self.peck,
                back: scaled(along, settings.peck_clearance),
                retreat: Retreat::ToLevel,
            },
        }
    }

    /// Whether the holes are drilled in pecks.
    fn has_pecks(&self) -> bool
        ensures { result ≡ has_pecks self.now }
    {
        match self.code.kind() {
            HoleKind::Drill => self.peck != 0,
            HoleKind::Tap | HoleKind::Bore => false,
        }
    }
}

/// The place of the bottom, if it is named and words can say it.
pub(crate) fn bottom_of(bottom: &Axis, level: i64) -> Option<i64>
    ensures { result ≡ bottom_of bottom.now level }
{
    match *bottom {
        Axis::To(place) => Some(place),
        Axis::By(way) => moved_near(level, way),
        Axis::Keep => None,
    }
}

/// The place so far from a level, if words can say both.
fn moved_near(level: i64, way: i64) -> Option<i64>
    ensures { result ≡ moved_near level way }
{
    if level.unsigned_abs() <= 300_000_000_000 && way.unsigned_abs() <= LONGEST_SAID {
        Some(level + way)
    } else {
        None
    }
}

/// How the tool leaves a hole of this kind.
fn way_out_of(kind: HoleKind) -> WayOut
    ensures { result ≡ way_out_of kind }
{
    match kind {
        HoleKind::Drill => WayOut::AtRapid,
        HoleKind::Tap | HoleKind::Bore => WayOut::AtFeed,
    }
}
