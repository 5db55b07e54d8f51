//! The kinds of holes, by their codes: G83 and G87 drill, G84 and G88 tap, G85 and G89 bore, the
//! first of each along Z, the other in X.
ghost use Rattle.std.specs.Prelude.{◌≡◌};
ghost use Rattle.peck_cycle.specs.declared.drill.ReturnLevel.TheVariants.{Start};
ghost use Rattle.peck_form.specs.Kinds.{kind_of, along_of, number_of, hole_code, hole_code_in_x, are_two, code_by, code_said, ends_run, level_said, level_in_b, level_from, letter_of_place, letter_of_way, other_axis};

use code_tables::System;
use cycle_words::{has_motion, words_of};
use nc_text::{Block, Word};
use peck_cycle::{Along, ReturnLevel};
use plain_form::has_code;

/// What is done to a hole.
#[derive(Clone, Copy, Debug, PartialEq, Eq)]
pub(crate) enum HoleKind {
    /// It is drilled, in pecks or in one cut, and left by a rapid.
    Drill,
    /// It is tapped: the spindle is turned about at the bottom.
    Tap,
    /// It is bored: the tool leaves it by the feed.
    Bore,
}

/// A code of holes, by what it does and its axis.
#[derive(Clone, Copy, Debug, PartialEq, Eq)]
pub(crate) enum HoleCode {
    /// G83.
    DrillZ,
    /// G84.
    TapZ,
    /// G85.
    BoreZ,
    /// G87.
    DrillX,
    /// G88.
    TapX,
    /// G89.
    BoreX,
}

impl HoleCode {
    /// What is done to a hole.
    pub(crate) fn kind(&self) -> HoleKind
        ensures { result ≡ kind_of self.now }
    {
        match *self {
            HoleCode::DrillZ => HoleKind::Drill,
            HoleCode::DrillX => HoleKind::Drill,
            HoleCode::TapZ => HoleKind::Tap,
            HoleCode::TapX => HoleKind::Tap,
            HoleCode::BoreZ => HoleKind::Bore,
            HoleCode::BoreX => HoleKind::Bore,
        }
    }

    /// The axis of the holes.
    pub(crate) fn along(&self) -> Along
        ensures { result ≡ along_of self.now }
    {
        match *self {
            HoleCode::DrillZ => Along::Z,
            HoleCode::TapZ => Along::Z,
            HoleCode::BoreZ => Along::Z,
            HoleCode::DrillX => Along::X,
            HoleCode::TapX => Along::X,
            HoleCode::BoreX => Along::X,
        }
    }

    /// Its number, in millionths.
    pub(crate) fn number(&self) -> i64
        ensures { result ≡ number_of self.now }
    {
        match *self {
            HoleCode::DrillZ => 83_000_000,
            HoleCode::TapZ => 84_000_000,
            HoleCode::BoreZ => 85_000_000,
            HoleCode::DrillX => 87_000_000,
            HoleCode::TapX => 88_000_000,
            HoleCode::BoreX => 89_000_000,
        }
    }
}

/// The code of holes among the words.
pub(crate) fn hole_code(words: &[Word]) -> Option<HoleCode>
    ensures { result ≡ hole_code words.now }
{
    if has_code(words, 83_000_000) {
        return Some(HoleCode::DrillZ);
    }
    if has_code(words, 84_000_000) {
        return Some(HoleCode::TapZ);
    }
    if has_code(words, 85_000_000) {
        return Some(HoleCode::BoreZ);
    }
    hole_code_in_x(words)
}

/// The same of the codes in X.
fn hole_code_in_x(words: &[Word]) -> Option<HoleCode>
    ensures { result ≡ hole_code_in_x words.now }
{
    if has_code(words, 87_000_000) {
        return Some(HoleCode::DrillX);
    }
    if has_code(words, 88_000_000) {
        return Some(HoleCode::TapX);
    }
    if has_code(words, 89_000_000) {
        return Some(HoleCode::BoreX);
    }
    None
}

/// Whether two axes are not the same.
fn are_two(one: Along, other: Along) -> bool
    ensures { result ≡ are_two one other }
{
    match (one, other) {
        (Along::Z, Along::Z) => false,
        (Along::Z, Along::X) => true,
        (Along::X, Along::Z) => true,
        (Along::X, Along::X) => false,
    }
}

/// The code of a run after another one, which takes its place if it is of the same axis.
fn code_by(before: &HoleCode, code: &HoleCode) -> HoleCode
    ensures { result ≡ code_by before.now code.now }
{
    if are_two(before.along(), code.along()) {
        *before
    } else {
        *code
    }
}

/// The code in force in a run after words, or the one before.
pub(crate) fn code_said(words: &[Word], before: &HoleCode) -> HoleCode
    ensures { result ≡ code_said before.now words.now }
{
    match hole_code(words) {
        Some(code) => code_by(before, &code),
        None => *before,
    }
}

/// Whether a block ends a run of holes: by G80, a code of motion, or a code of holes along the other
/// axis.
pub(crate) fn ends_run(words: &[Word], code: &HoleCode, system: System) -> bool
    ensures { result ≡ ends_run code.now system words.now }
{
    if has_code(words, 80_000_000) || has_motion(words, system) {
        return true;
    }
    match hole_code(words) {
        Some(other) => are_two(code.along(), other.along()),
        None => false,
    }
}

/// The level that the words name: G98 or G99 of system B, or the one before.
pub(crate) fn level_said(words: &[Word], system: System, before: ReturnLevel) -> ReturnLevel
    ensures { result ≡ level_said system before words.now }
{
    match system {
        System::A => before,
        System::B => level_in_b(words, before),
    }
}

/// The same in system B.
fn level_in_b(words: &[Word], before: ReturnLevel) -> ReturnLevel
    ensures { result ≡ level_in_b before words.now }
{
    if has_code(words, 98_000_000) {
        return ReturnLevel::Start;
    }
    if has_code(words, 99_000_000) {
        ReturnLevel::PointR
    } else {
        before
    }
}

/// The level that the blocks of a program name, up to a place; the start without one.
pub(crate) fn level_before(blocks: &[Block], system: System) -> ReturnLevel
    ensures { result ≡ level_from system Start blocks.now }
{
    let mut level = ReturnLevel::Start;
    for block in blocks {
        level = level_said(words_of(block), system, level);
    }
    level
}

/// The letter of a place along an axis.
pub(crate) fn letter_of_place(along: Along) -> u8
    ensures { result ≡ letter_of_place along }
{
    match along {
        Along::Z => b'Z',
        Along::X => b'X',
    }
}

/// The letter of a way along it.
pub(crate) fn letter_of_way(along: Along) -> u8
    ensures { result ≡ letter_of_way along }
{
    match along {
        Along::Z => b'W',
        Along::X => b'U',
    }
}

/// The axis beside one.
pub(crate) fn other_axis(along: Along) -> Along
    ensures { result ≡ other_axis along }
{
    match along {
        Along::Z => Along::X,
        Along::X => Along::Z,
    }
}
